//! What the system is given to start.
ghost use Rattle.std.specs.Prelude.{◌≡◌, ◌++◌, ◌∷◌, [], ℕ, List, Some, None, false, IfOk, OnOk, codes};
ghost use Rattle.std.specs.Process.{command_program, command_args, command_var, command_dir, clears_env, var_after, SameProgramAndArgs, SameEnv, SameOtherVars};
ghost use Rattle.host_children.specs.Started.{shell_path, program_of, words_of, script_words, said_of, end_script, end_alone_script};

use crate::output::direct_output;
use host_files::is_file;
use nuc_base::Text;
use std::alloc::{AllocError, Global};
use std::fs::{File, Files};
use std::os::unix::fs::MetadataExt;
use std::process::Stdio;
use std::rt::Env;
use std::{env, fs, io, process};
use step_runner::Command;

/// The bits of a file's mode that let somebody execute it.
const EXECUTE_BITS: u32 = 0o111;

/// Where programs are looked for where there is no PATH, as the C library does (confstr, _CS_PATH).
const USUAL_FOLDERS: &str = "/bin:/usr/bin";

/// How a script is started.
#[derive(Drop)]
pub(crate) struct Shell {
    /// What makes its caller the leader of a group and then runs a program in its place.
    pub(crate) setsid: Option<String>,
    /// The shell, where it was found.
    pub(crate) shell: Option<String>,
}

impl Shell {
    /// Takes both from the PATH of this program, and without one from the usual folders.
    pub(crate) fn find<R: Files + Env + AllocGlobal>(rt: &R) -> Self {
        Shell {
            setsid: find_program(rt, "setsid"),
            shell: find_program(rt, "sh"),
        }
    }
}

/// The path of a file of this name in one of these folders, which a colon parts, one that may be executed where that is asked
/// for. An empty folder there is the current one.
fn find_in<R: Files + AllocGlobal>(
    files: &R,
    folders: &str,
    word: &str,
    is_program: bool,
) -> io::Result<Option<String>> {
    let alloc = files.alloc();
    for folder in folders.split(':') {
        let folder = if folder.is_empty() { "." } else { folder };
        let path = format!(in alloc; "{folder}/{word}")?;
        let is_found = if is_program {
            may_execute(files, path.as_str())
        } else {
            is_file(files, path.as_str()).unwrap_or(false)
        };
        if is_found {
            return Ok(Some(path));
        }
    }
    Ok(None)
}

/// Whether a file stands there that somebody may execute.
fn may_execute<R: Files>(files: &R, path: &str) -> bool {
    match fs::metadata(files, path) {
        Ok(found) => found.is_file() && found.mode() & EXECUTE_BITS != 0,
        Err(_) => false,
    }
}

/// Whether a file of this name stands in a folder of PATH.
pub(crate) fn is_on_path<R: Files + Env + AllocGlobal>(rt: &R, word: &str) -> bool {
    match env::var(rt, "PATH") {
        Ok(folders) => matches!(find_in(rt, folders.as_str(), word, false), Ok(Some(_))),
        Err(_) => false,
    }
}

/// The path of a program, which is to mean the same in each folder, whatever PATH a command sets.
fn find_program<R: Files + Env + AllocGlobal>(rt: &R, word: &str) -> Option<String> {
    let found = match env::var(rt, "PATH") {
        Ok(folders) => find_in(rt, folders.as_str(), word, true),
        Err(_) => find_in(rt, USUAL_FOLDERS, word, true),
    };
    match found {
        Ok(Some(path)) if path.as_str().starts_with('/') => Some(path),
        _ => None,
    }
}

impl Shell {
    /// The shell. A word without a path would be looked for in the command's own PATH.
    fn path(&self) -> &str
        ensures { result.now ≡ shell_path self.now }
    {
        match &self.shell {
            Some(path) => path.as_str(),
            None => "sh",
        }
    }

    /// The program that is started.
    fn program(&self) -> &str
        ensures { result.now ≡ program_of self.now }
    {
        match &self.setsid {
            Some(setsid) => setsid.as_str(),
            None => self.path(),
        }
    }
}

/// A program that reads nothing and whose output is dropped, in the folder and with the variables of this one.
fn silent(alloc: Global, program: &str) -> Result<process::Command, AllocError>
    ensures program { IfOk result (λ c. command_program c ≡ program.now) }
    ensures words { IfOk result (λ c. command_args c ≡ []) }
    ensures variables { IfOk result (λ c. (name : List ℕ) → command_var c name ≡ None) }
    ensures inherits { IfOk result (λ c. clears_env c ≡ false) }
    ensures folder { IfOk result (λ c. command_dir c ≡ None) }
{
    let mut child = process::Command::new(alloc, program)?;
    child.stdin(Stdio::null());
    child.stdout(Stdio::null());
    child.stderr(Stdio::null());
    Ok(child)
}

/// What the system is given for a command: `sh -c` in its folder, in a group of its own where that can be had, with its
/// variables added to those of this program. Its output goes to the log of its component, where there is one.
pub(crate) fn prepared<R: Files<File = File>>(
    files: &R,
    alloc: Global,
    root: &str,
    shell: &Shell,
    command: &Command,
) -> Result<process::Command, AllocError>
    ensures program { IfOk result (λ c. command_program c ≡ program_of shell.now) }
    ensures words { IfOk result (λ c. command_args c ≡ words_of shell.now command.now.script) }
    ensures variables { IfOk result (λ c. (name : List ℕ) → command_var c name ≡ said_of name command.now.env) }
    ensures inherits { IfOk result (λ c. clears_env c ≡ false) }
    ensures folder { IfOk result (λ c. command_dir c ≡ Some command.now.folder) }
{
    let mut child = silent(alloc, shell.program())?;
    direct_output(files, alloc, root, command.folder.as_str(), &mut child);
    match add_command(&mut child, shell, command) {
        Ok(()) => Ok(child),
        Err(error) => {
            drop(child);
            Err(error)
        }
    }
}

/// Adds the words behind the program, the variables and the folder.
fn add_command(
    child: &mut process::Command,
    shell: &Shell,
    command: &Command,
) -> Result<(), AllocError>
    ensures program { OnOk result (command_program child.new ≡ command_program child.old) }
    ensures words { OnOk result (command_args child.new ≡ command_args child.old ++ words_of shell.now command.now.script) }
    ensures variables { OnOk result ((name : List ℕ) → command_var child.new name ≡
        var_after (λ k. Some k) (λ v. Some v) name (command_var child.old name) command.now.env) }
    ensures inherits { OnOk result (clears_env child.new ≡ clears_env child.old) }
    ensures folder { OnOk result (command_dir child.new ≡ Some command.now.folder) }
{
    add_words(child, shell, command.script.as_str())?;
    add_variables(child, command.env.as_slice())?;
    child.current_dir(command.folder.as_str())?;
    Ok(())
}

/// Adds what makes the shell run the script, and the shell itself where another program is to run it.
fn add_words(child: &mut process::Command, shell: &Shell, script: &str) -> Result<(), AllocError>
    ensures program { OnOk result (command_program child.new ≡ command_program child.old) }
    ensures words { OnOk result (command_args child.new ≡ command_args child.old ++ words_of shell.now script.now) }
    ensures env { OnOk result (SameEnv child.old child.new) }
{
    if shell.setsid.is_some() {
        child.arg(shell.path())?;
    }
    add_script(child, script)
}

/// Adds what makes a shell run the script.
fn add_script(child: &mut process::Command, script: &str) -> Result<(), AllocError>
    ensures program { OnOk result (command_program child.new ≡ command_program child.old) }
    ensures words { OnOk result (command_args child.new ≡ command_args child.old ++ script_words script.now) }
    ensures env { OnOk result (SameEnv child.old child.new) }
{
    child.arg("-c")?;
    child.arg(script)?;
    Ok(())
}

/// Adds a variable, in the place of one of its name.
fn add_variable(child: &mut process::Command, name: &str, value: &str) -> Result<(), AllocError>
    ensures call { OnOk result (SameProgramAndArgs child.old child.new) }
    ensures set { OnOk result (command_var child.new name.now ≡ Some (Some value.now)) }
    ensures others { OnOk result (SameOtherVars child.old child.new name.now) }
    ensures inherits { OnOk result (clears_env child.new ≡ clears_env child.old) }
{
    child.env(name, value)?;
    Ok(())
}

/// Adds the variables, of two with one name the later one.
fn add_variables(child: &mut process::Command, variables: &[(Text, Text)]) -> Result<(), AllocError>
    ensures call { OnOk result (SameProgramAndArgs child.old child.new) }
    ensures variables { OnOk result ((name : List ℕ) → command_var child.new name ≡
        var_after (λ k. Some k) (λ v. Some v) name (command_var child.old name) variables.now) }
    ensures inherits { OnOk result (clears_env child.new ≡ clears_env child.old) }
{
    for variable in variables {
        add_variable(child, variable.0.as_str(), variable.1.as_str())?;
    }
    Ok(())
}

/// What the system is given to end the process with this number.
pub(crate) fn process_killer(alloc: Global, process: u32) -> Result<process::Command, AllocError>
    ensures program { IfOk result (λ c. command_program c ≡ codes "sh") }
    ensures words { IfOk result (λ c. command_args c ≡ script_words (end_alone_script process)) }
{
    let script = format!(in alloc; "kill -s KILL -- {process}")?;
    killer(alloc, script.as_str())
}

/// What the system is given to end what lives in the group that this process leads.
pub(crate) fn group_killer(alloc: Global, leader: u32) -> Result<process::Command, AllocError>
    ensures program { IfOk result (λ c. command_program c ≡ codes "sh") }
    ensures words { IfOk result (λ c. command_args c ≡ script_words (end_script leader)) }
{
    let script = format!(in alloc; "kill -s KILL -- -{leader}")?;
    killer(alloc, script.as_str())
}

/// A shell that runs this script.
fn killer(alloc: Global, script: &str) -> Result<process::Command, AllocError>
    ensures program { IfOk result (λ c. command_program c ≡ codes "sh") }
    ensures words { IfOk result (λ c. command_args c ≡ script_words script.now) }
{
    let mut killer = silent(alloc, "sh")?;
    match add_script(&mut killer, script) {
        Ok(()) => Ok(killer),
        Err(error) => {
            drop(killer);
            Err(error)
        }
    }
}

// Whether the words ask a command that drives a deployment.
ghost use Rattle.std.specs.Prelude.{◌≡◌, map, string_bytes};
ghost use Rattle.nucleus_top.specs.Asked.{AreWordsFor, asked_of};

use admission::Ask;
use command_words::{Order, WordsFault, read_words, words_ask_one_thing};
use std::alloc::Global;

/// What the words ask.
#[derive(Debug, Drop, PartialEq, Eq)]
pub enum Asked {
    /// To deploy what the source has, which is of this kind.
    Deploy(Ask),
    Resume,
    /// To keep the set up and to deploy what an inbox has, for so many turns.
    Serve(u32),
    /// Another command, or nothing.
    Other,
    /// There is no memory to read them.
    NoMemory,
}

fn asked_by(order: Order) -> Asked
    ensures { result ≡ asked_of order }
{
    match order {
        Order::Deploy => Asked::Deploy(Ask::Document),
        Order::Local => Asked::Deploy(Ask::Local),
        Order::ConfigSet(name) => Asked::Deploy(Ask::Change(name)),
        Order::Resume => Asked::Resume,
        Order::Serve(turns) => Asked::Serve(turns),
        Order::Init(_)
        | Order::Status(_)
        | Order::Plan
        | Order::Workload(_)
        | Order::Audit
        | Order::ConfigGet(..)
        | Order::Why
        | Order::Components
        | Order::About => Asked::Other,
    }
}

/// What the words of the command line ask.
pub(crate) fn read_asked(alloc: Global, words: &Vec<String>) -> Asked
    ensures { AreWordsFor (map string_bytes words.now.items) result }
{
    words_ask_one_thing();
    match read_words(alloc, words) {
        Ok((_root, order)) => asked_by(order),
        Err(WordsFault::Usage) => Asked::Other,
        Err(WordsFault::NoMemory) => Asked::NoMemory,
    }
}

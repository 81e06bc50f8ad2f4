ghost use Rattle.std.specs.Prelude.{◌≡◌, ◌≢◌, ◌++◌, ◌∷◌, [], ℕ, List, IfOk, OnOk, MatchOption};
ghost use Rattle.interpolation.specs.Values.{replaced};
ghost use Rattle.interpolation.specs.Variables.{Expanded, ExpandedPrefix, EndsInside};
ghost use Rattle.interpolation.specs.Scopes.{HasRegularConfigs};

use crate::scope::Scope;
use crate::values::short_value;
use nuc_base::{NoMemory, Text};
use std::alloc::Global;

/// The text with each variable replaced by its value. A variable is `{w}` where w is not empty and has neither `{`
/// nor `}`. One whose value is not there, or has more than 4,096 bytes, stays as written; what a value says is not
/// expanded again. These are the values of w, the first that is there:
///
/// - `configuration:P`: the node at the JSON pointer P (RFC 6901) of the component's configuration, a text as it is,
///   any other node as compact JSON
/// - `artifacts:path`: `ROOT/packages/artifacts/NAME/VERSION`
/// - `artifacts:decompressedPath`: `ROOT/packages/artifacts-unarchived/NAME/VERSION`
/// - `work:path`: `ROOT/work/NAME`
/// - `kernel:rootPath`: the root; `iot:thingName`: the thing's name
/// - `N:` and one of the first four: the same of the needed component N, where N ends at the first `:`
pub fn expand(alloc: Global, text: &Text, scope: &Scope) -> Result<Text, NoMemory>
    requires { HasRegularConfigs scope.now }
    ensures { IfOk result (λ t. Expanded scope.now text.now t) }
{
    let mut expanded = Text::empty(alloc);
    let mut rest = text.as_str();
    'pieces: while let Some((piece, after)) = rest.split_once('}') {
        push_piece(alloc, &mut expanded, piece, scope)?;
        rest = after;
    }
    expanded.push_str(rest)?;
    Ok(expanded)
}

/// Adds what the piece and the `}` behind it become.
fn push_piece(
    alloc: Global,
    expanded: &mut Text,
    piece: &str,
    scope: &Scope,
) -> Result<(), NoMemory>
    requires scope { HasRegularConfigs scope.now }
    requires piece { (x y : List ℕ) → piece.now ≢ x ++ (125 ∷ y) }
    ensures { OnOk result ((added : List ℕ) × (expanded.new ≡ expanded.old ++ added)
        × ExpandedPrefix scope.now (piece.now ++ (125 ∷ [])) added) }
{
    match open_variable(piece) {
        Some((plain, word)) => {
            expanded.push_str(plain)?;
            push_variable(alloc, expanded, word, scope)
        }
        None => {
            expanded.push_str(piece)?;
            expanded.push_str("}")
        }
    }
}

/// Where a `}` behind the piece ends a variable: the text before the variable, and what stands inside.
fn open_variable(piece: &str) -> Option<(&str, &str)>
    requires { (x y : List ℕ) → piece.now ≢ x ++ (125 ∷ y) }
    ensures { MatchOption result ((prefix w : List ℕ) → ¬ EndsInside piece.now prefix w)
        (λ x. EndsInside piece.now x.0.now x.1.now) }
{
    let Some((plain, word)) = piece.rsplit_once('{') else {
        return None;
    };
    if word.is_empty() {
        return None;
    }
    Some((plain, word))
}

/// Adds the value of the variable, or the variable as written.
fn push_variable(
    alloc: Global,
    expanded: &mut Text,
    word: &str,
    scope: &Scope,
) -> Result<(), NoMemory>
    requires { HasRegularConfigs scope.now }
    ensures { OnOk result (expanded.new ≡ expanded.old ++ replaced scope.now word.now) }
{
    match short_value(alloc, word, scope)? {
        Some(text) => expanded.push_str(text.as_str()),
        None => {
            expanded.push_str("{")?;
            expanded.push_str(word)?;
            expanded.push_str("}")
        }
    }
}

//! How each text is written and read: its length and its bytes, which its type reads.
ghost use Rattle.std.specs.Prelude.{◌≡◌, ◌++◌, ◌<◌, ◌^◌, ℕ, List, length, Option, OnOk};
ghost use Rattle.serde_json.specs.Data.{Data};
ghost use Rattle.tree_core.specs.View.{view};
ghost use Rattle.records.specs.Codec.{string, string_at};
ghost use Rattle.records.specs.Layout as layout;
ghost use Rattle.records.specs.Gives.{ReadOutcome, IsTreeStop};

use crate::coded::{Coded, put_string, string_of};
use crate::stop::Stop;
use npm_ranges::{Range, RangeFault, Version, VersionFault};
use nuc_base::{Bytes, Label, Name, NameFault, NoMemory, Text};
use std::alloc::Global;
use std::str;
use tree_core::{Tree, TreeFault};

impl Coded for Bytes {
    ghost Seen = { List ℕ };

    ghost seen = { λ b. b };

    ghost spell = { string.spell };

    ghost at = { string_at };

    ghost fits = { string.Fits };

    ghost asks = { string.Asks };

    fn put(&self, _alloc: Global, out: &mut Vec<u8>) -> Result<(), NoMemory> {
        put_string(out, self.as_slice())
    }

    fn take(alloc: Global, bytes: &[u8]) -> Result<(Bytes, &[u8]), Stop> {
        let (text, rest) = string_of(bytes)?;
        Ok((Bytes::from_slice(alloc, text)?, rest))
    }
}

impl Coded for Text {
    ghost Seen = { List ℕ };

    ghost seen = { λ t. t };

    ghost spell = { layout.text.spell };

    ghost at = { layout.text.at };

    ghost fits = { layout.text.Fits };

    ghost asks = { layout.text.Asks };

    fn put(&self, _alloc: Global, out: &mut Vec<u8>) -> Result<(), NoMemory> {
        put_string(out, self.as_str().as_bytes())
    }

    fn take(alloc: Global, bytes: &[u8]) -> Result<(Text, &[u8]), Stop> {
        let (text, rest) = string_of(bytes)?;
        let Ok(text) = str::from_utf8(text) else {
            return Err(Stop::Bad);
        };
        Ok((Text::from_str(alloc, text)?, rest))
    }
}

impl Coded for Label {
    ghost Seen = { List ℕ };

    ghost seen = { λ t. t };

    ghost spell = { layout.label.spell };

    ghost at = { layout.label.at };

    ghost fits = { layout.label.Fits };

    ghost asks = { layout.label.Asks };

    fn put(&self, _alloc: Global, out: &mut Vec<u8>) -> Result<(), NoMemory> {
        put_string(out, self.as_bytes())
    }

    fn take(alloc: Global, bytes: &[u8]) -> Result<(Label, &[u8]), Stop> {
        let (text, rest) = string_of(bytes)?;
        match Label::read(alloc, text) {
            Ok(label) => Ok((label, rest)),
            Err(NameFault::Bad) => Err(Stop::Bad),
            Err(NameFault::NoMemory) => Err(Stop::Memory),
        }
    }
}

impl Coded for Name {
    ghost Seen = { List ℕ };

    ghost seen = { λ t. t };

    ghost spell = { layout.name.spell };

    ghost at = { layout.name.at };

    ghost fits = { layout.name.Fits };

    ghost asks = { layout.name.Asks };

    fn put(&self, _alloc: Global, out: &mut Vec<u8>) -> Result<(), NoMemory> {
        put_string(out, self.as_bytes())
    }

    fn take(alloc: Global, bytes: &[u8]) -> Result<(Name, &[u8]), Stop> {
        let (text, rest) = string_of(bytes)?;
        match Name::read(alloc, text) {
            Ok(name) => Ok((name, rest)),
            Err(NameFault::Bad) => Err(Stop::Bad),
            Err(NameFault::NoMemory) => Err(Stop::Memory),
        }
    }
}

impl Coded for Version {
    ghost Seen = { List ℕ };

    ghost seen = { λ t. t };

    ghost spell = { layout.version.spell };

    ghost at = { layout.version.at };

    ghost fits = { layout.version.Fits };

    ghost asks = { layout.version.Asks };

    fn put(&self, _alloc: Global, out: &mut Vec<u8>) -> Result<(), NoMemory> {
        put_string(out, self.text().as_bytes())
    }

    fn take(alloc: Global, bytes: &[u8]) -> Result<(Version, &[u8]), Stop> {
        let (text, rest) = string_of(bytes)?;
        match Version::read(alloc, text) {
            Ok(version) => Ok((version, rest)),
            Err(VersionFault::Bad) => Err(Stop::Bad),
            Err(VersionFault::NoMemory) => Err(Stop::Memory),
        }
    }
}

impl Coded for Range {
    ghost Seen = { List ℕ };

    ghost seen = { λ t. t };

    ghost spell = { layout.range.spell };

    ghost at = { layout.range.at };

    ghost fits = { layout.range.Fits };

    ghost asks = { layout.range.Asks };

    fn put(&self, _alloc: Global, out: &mut Vec<u8>) -> Result<(), NoMemory> {
        put_string(out, self.text().as_bytes())
    }

    fn take(alloc: Global, bytes: &[u8]) -> Result<(Range, &[u8]), Stop> {
        let (text, rest) = string_of(bytes)?;
        match Range::read(alloc, text) {
            Ok(range) => Ok((range, rest)),
            Err(RangeFault::Bad) => Err(Stop::Bad),
            Err(RangeFault::TooManyParts) => Err(Stop::Bad),
            Err(RangeFault::NoMemory) => Err(Stop::Memory),
        }
    }
}

fn stop_of(fault: TreeFault) -> Stop
    ensures { IsTreeStop fault result }
{
    match fault {
        TreeFault::NoMemory => Stop::Memory,
        TreeFault::TooLarge | TreeFault::NotJson | TreeFault::TooDeep | TreeFault::NotWhole =>
            Stop::Bad,
    }
}

fn tree_of(alloc: Global, text: &[u8]) -> Result<Tree, Stop>
    ensures { ReadOutcome view result (layout.tree_of text.now) }
{
    let tree = match Tree::read(alloc, text, text.len()) {
        Ok(tree) => tree,
        Err(fault) => return Err(stop_of(fault)),
    };
    let spelled = tree.write(alloc)?;
    if spelled.as_bytes() == text {
        Ok(tree)
    } else {
        Err(Stop::Bad)
    }
}

impl Coded for Tree {
    ghost Seen = { Data };

    ghost seen = { view };

    ghost spell = { layout.tree.spell };

    ghost at = { layout.tree.at };

    ghost fits = { layout.tree.Fits };

    ghost asks = { layout.tree.Asks };

    fn put(&self, alloc: Global, out: &mut Vec<u8>) -> Result<(), NoMemory> {
        let text = self.write(alloc)?;
        put_string(out, text.as_bytes())
    }

    fn take(alloc: Global, bytes: &[u8]) -> Result<(Tree, &[u8]), Stop> {
        let (text, rest) = string_of(bytes)?;
        Ok((tree_of(alloc, text)?, rest))
    }
}

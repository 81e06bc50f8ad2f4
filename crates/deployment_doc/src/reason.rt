ghost use Rattle.std.specs.Prelude.{◌≡◌, ◌++◌, option_map};
ghost use Rattle.deployment_doc.specs.Reasons.{word_of, field_of, reason_of};

use crate::fault::DocFault;
use std::fmt;

impl DocFault {
    /// The printed reason in three pieces that are written one after the other: the fault's word, a space where it has
    /// a field, and the field.
    pub fn reason(&self) -> (&str, &str, &str)
        ensures { result.0.now ++ result.1.now ++ result.2.now ≡ reason_of self.now }
    {
        match self.field() {
            Some(field) => (self.word(), " ", field),
            None => (self.word(), "", ""),
        }
    }

    fn word(&self) -> &'static str
        ensures { result.now ≡ word_of self.now }
    {
        match self {
            DocFault::Tree(fault) => fault.word(),
            DocFault::Missing(_) => "Missing",
            DocFault::WrongKind(_) => "WrongKind",
            DocFault::TooMany(_) => "TooMany",
            DocFault::DuplicateKey(_) => "DuplicateKey",
            DocFault::BadName(_) => "BadName",
            DocFault::BadRevision => "BadRevision",
            DocFault::BadPolicy => "BadPolicy",
            DocFault::BadRange(_) => "BadRange",
            DocFault::BadPointer(_) => "BadPointer",
            DocFault::BadMerge(_) => "BadMerge",
            DocFault::NoMemory => "NoMemory",
        }
    }

    fn field(&self) -> Option<&str>
        ensures { option_map (λ s. s.now) result ≡ field_of self.now }
    {
        match self {
            DocFault::Missing(key)
            | DocFault::WrongKind(key)
            | DocFault::TooMany(key)
            | DocFault::DuplicateKey(key)
            | DocFault::BadName(key) => Some(key.text()),
            DocFault::BadRange(name) | DocFault::BadPointer(name) | DocFault::BadMerge(name) => {
                Some(name.as_str())
            }
            DocFault::Tree(_) | DocFault::BadRevision | DocFault::BadPolicy | DocFault::NoMemory =>
                None,
        }
    }
}

impl fmt::Display for DocFault {
    ghost use Rattle.std.specs.Prelude.{Some};
    ghost use Rattle.deployment_doc.specs.Reasons.{reason_of};

    ghost output = { λ fault. Some (reason_of fault) };

    fn fmt<W: fmt::Write>(&self, f: &mut fmt::Formatter<W>) -> fmt::Result {
        let (word, space, field) = self.reason();
        write!(f, "{word}{space}{field}")
    }
}

impl std::error::Error for DocFault {}

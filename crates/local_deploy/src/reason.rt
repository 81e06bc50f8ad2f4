ghost use Rattle.std.specs.Prelude.{◌≡◌, ◌++◌, option_map};
ghost use Rattle.local_deploy.specs.Reasons.{word_of, field_of, reason_of};

use crate::fault::LocalFault;
use std::fmt;

impl LocalFault {
    /// The printed reason in three pieces that are written one after the other: the fault's word, a space where it has
    /// a field, and the field. That of an update is the one that a document's has.
    pub fn reason(&self) -> (&str, &str, &str)
        ensures { result.0.now ++ result.1.now ++ result.2.now ≡ reason_of self.now }
    {
        if let LocalFault::Update(fault) = self {
            return fault.reason();
        }
        match self.field() {
            Some(field) => (self.word(), " ", field),
            None => (self.word(), "", ""),
        }
    }

    fn word(&self) -> &str
        ensures { result.now ≡ word_of self.now }
    {
        match self {
            LocalFault::Tree(fault) => fault.word(),
            LocalFault::Missing(_) => "Missing",
            LocalFault::WrongKind(_) => "WrongKind",
            LocalFault::TooMany(_) => "TooMany",
            LocalFault::BadName(_) => "BadName",
            LocalFault::BadPolicy => "BadPolicy",
            LocalFault::BadRange(_) => "BadRange",
            LocalFault::Update(_) => "Update",
            LocalFault::Both(_) => "Both",
            LocalFault::NoMemory => "NoMemory",
        }
    }

    fn field(&self) -> Option<&str>
        ensures { option_map (λ s. s.now) result ≡ field_of self.now }
    {
        match self {
            LocalFault::Missing(key)
            | LocalFault::WrongKind(key)
            | LocalFault::TooMany(key)
            | LocalFault::BadName(key) => Some(key.text()),
            LocalFault::BadRange(name) | LocalFault::Both(name) => Some(name.as_str()),
            LocalFault::Tree(_)
            | LocalFault::BadPolicy
            | LocalFault::Update(_)
            | LocalFault::NoMemory => None,
        }
    }
}

impl fmt::Display for LocalFault {
    ghost use Rattle.std.specs.Prelude.{Some};
    ghost use Rattle.local_deploy.specs.Reasons.{reason_of};

    ghost output = { λ fault. Some (reason_of fault) };

    fn fmt<W: fmt::Write>(&self, f: &mut fmt::Formatter<W>) -> fmt::Result {
        let (word, space, field) = self.reason();
        write!(f, "{word}{space}{field}")
    }
}

impl std::error::Error for LocalFault {}

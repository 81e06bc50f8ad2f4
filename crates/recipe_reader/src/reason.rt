ghost use Rattle.std.specs.Prelude.{◌≡◌, ◌++◌, option_map};
ghost use Rattle.recipe_reader.specs.Reasons.{word_of, field_of, reason_of};

use crate::fault::RecipeFault;
use std::fmt;

impl RecipeFault {
    /// The printed reason in three pieces that are written one after the other: the fault's word, a space where it has
    /// a field, and the field.
    pub fn reason(&self) -> (&'static str, &'static str, &'static str)
        ensures { result.0.now ++ result.1.now ++ result.2.now ≡ reason_of self.now }
    {
        match self.field() {
            Some(field) => (self.word(), " ", field),
            None => (self.word(), "", ""),
        }
    }

    fn word(&self) -> &'static str
        ensures { result.now ≡ word_of self.now }
    {
        match self {
            RecipeFault::Tree(fault) => fault.word(),
            RecipeFault::Missing(_) => "Missing",
            RecipeFault::WrongKind(_) => "WrongKind",
            RecipeFault::FormatVersion => "FormatVersion",
            RecipeFault::BadName(_) => "BadName",
            RecipeFault::BadVersion => "BadVersion",
            RecipeFault::UnsupportedType => "UnsupportedType",
            RecipeFault::GlobalLifecycle => "GlobalLifecycle",
            RecipeFault::TooMany(_) => "TooMany",
            RecipeFault::BadRange => "BadRange",
            RecipeFault::UnsupportedPlatform => "UnsupportedPlatform",
            RecipeFault::NoManifest => "NoManifest",
            RecipeFault::DuplicateKey(_) => "DuplicateKey",
            RecipeFault::BadSkipif => "BadSkipif",
            RecipeFault::BadTimeout => "BadTimeout",
            RecipeFault::RunAndStartup => "RunAndStartup",
            RecipeFault::UnsupportedUri => "UnsupportedUri",
            RecipeFault::ZipArtifact => "ZipArtifact",
            RecipeFault::BadDigest => "BadDigest",
            RecipeFault::DuplicateArtifact => "DuplicateArtifact",
            RecipeFault::NoMemory => "NoMemory",
        }
    }

    fn field(&self) -> Option<&'static str>
        ensures { option_map (λ s. s.now) result ≡ field_of self.now }
    {
        match self {
            RecipeFault::Missing(key)
            | RecipeFault::WrongKind(key)
            | RecipeFault::BadName(key)
            | RecipeFault::TooMany(key)
            | RecipeFault::DuplicateKey(key) => Some(key.text()),
            _ => None,
        }
    }
}

impl fmt::Display for RecipeFault {
    ghost use Rattle.std.specs.Prelude.{Some};
    ghost use Rattle.recipe_reader.specs.Reasons.{reason_of};

    ghost output = { λ fault. Some (reason_of fault) };

    fn fmt<W: fmt::Write>(&self, f: &mut fmt::Formatter<W>) -> fmt::Result {
        let (word, space, field) = self.reason();
        write!(f, "{word}{space}{field}")
    }
}

impl std::error::Error for RecipeFault {}

/// How many bytes of names are read from a folder at a time, which has room for any one name.
pub const NAMES: usize = 4_096;

/// Whether a name that a folder gives is that of something that stands in it: none is empty, and it names itself and the
/// folder above it too.
pub fn is_entry(name: &[u8]) -> bool {
    !name.is_empty() && name != b".".as_slice() && name != b"..".as_slice()
}

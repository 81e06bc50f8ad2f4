/// The most bytes of a deployment document.
pub const DOCUMENT_LIMIT: usize = 524_288;

//! Edits of the rows that a store keeps beside its objects.
use mds_types::Bytes;

/// An edit of the rows that a store keeps beside its objects, such as its session map: it gives the key this value, or
/// removes the key's row.
#[derive(Debug, Drop)]
pub struct RowEdit {
    pub key: Bytes,
    pub value: Option<Bytes>,
}

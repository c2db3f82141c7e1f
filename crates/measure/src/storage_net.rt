// Whether an edition of the rules counts the storage net.
#[derive(Clone, Copy)]
pub enum StorageNet {
    Ignored,
    Counted,
}

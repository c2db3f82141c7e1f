// The two parties of a trade.
#[derive(Clone, Copy)]
pub enum Party {
    Seller,
    Buyer,
}

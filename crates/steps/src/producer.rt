// A ledger that a caller lends, with its index.
ghost use Rattle.index.specs.Index.{Indexed};
ghost use Rattle.index.proofs.IndexProps.{indexed-prop};

// The numbers in `index` are the index of the ledger.
#[derive(Drop)]
pub struct Producer<'a> {
    pub ledger: &'a mut [u8],
    pub index: &'a mut [u32],
    ghost indexed: { Indexed ledger.now index.now } by { indexed-prop ledger.now index.now },
}

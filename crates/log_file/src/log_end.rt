/// Where the whole entries of a log end, and what stands behind them.
#[derive(Clone, Copy, Debug)]
pub struct LogEnd {
    pub(crate) at: u64,
    pub(crate) digest: [u8; 32],
    pub(crate) entries: u64,
    pub(crate) tail: u64,
}

impl LogEnd {
    ghost use Rattle.std.specs.Prelude.{◌≡◌};

    /// How many entries there are.
    pub fn entries(&self) -> u64
        ensures { result ≡ self.now.entries }
    {
        self.entries
    }

    /// At which byte they end.
    pub fn at(&self) -> u64
        ensures { result ≡ self.now.at }
    {
        self.at
    }

    /// How many bytes the torn tail has that stands behind them; 0 where there is none.
    pub fn tail(&self) -> u64
        ensures { result ≡ self.now.tail }
    {
        self.tail
    }

    /// The digest of the last entry, or that of the header where there is none.
    pub fn digest(&self) -> [u8; 32]
        ensures { result ≡ self.now.digest }
    {
        self.digest
    }
}

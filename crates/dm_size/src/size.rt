//! The square symbol sizes.
#![tactic(auto, using(crate::proofs::Sound::sound))]

ghost use Rattle.std.specs.Prelude.{◌≡◌, ◌≢◌, ◌<◌, Contains, AllPairs, IsNone, IfSome};
ghost use Rattle.dm_size.specs.declared.size.Size.{Size};
ghost use Rattle.dm_size.specs.Sizes as sizes;

// Where a size is listed: in this enum, in `Size::all` and `Size::row` below, and in specs/Sizes.antt; above this
// crate in what docs/CONTRIBUTING.md says of a new size.

/// A square ECC 200 symbol of one data region or more, by its side in modules, finder patterns included:
/// the sides 10 to 132 of ISO/IEC 16022:2006, 5.5. Side 144, whose blocks are unequal, is left out.
#[derive(Clone, Copy, Debug, PartialEq, Eq, PartialOrd, Ord, Hash)]
pub enum Size {
    Side10,
    Side12,
    Side14,
    Side16,
    Side18,
    Side20,
    Side22,
    Side24,
    Side26,
    Side32,
    Side36,
    Side40,
    Side44,
    Side48,
    Side52,
    Side64,
    Side72,
    Side80,
    Side88,
    Side96,
    Side104,
    Side120,
    Side132,
}

// A row of the standard's table: two lengths in modules, and four numbers.
#[derive(Clone, Copy)]
struct Row {
    side: u16,
    region: u16,
    regions: u16,
    data_words: u16,
    check_words: u16,
    blocks: u16,
}

impl Size {
    /// All sizes, by rising side.
    #[rattlefmt::skip]
    pub fn all() -> [Size; 23]
        ensures each { (size : Size) → Contains result size }
        ensures rising { AllPairs (λ before after. sizes.side before < sizes.side after) result }
    {
        [
            Size::Side10, Size::Side12, Size::Side14, Size::Side16, Size::Side18, Size::Side20, Size::Side22,
            Size::Side24, Size::Side26, Size::Side32, Size::Side36, Size::Side40, Size::Side44, Size::Side48,
            Size::Side52, Size::Side64, Size::Side72, Size::Side80, Size::Side88, Size::Side96, Size::Side104,
            Size::Side120, Size::Side132,
        ]
    }

    /// The size with this many modules along a side, if it is one of the 23.
    pub fn of_side(side: u16) -> Option<Size>
        ensures found { IfSome result (λ size. sizes.side size ≡ side) }
        ensures none { IsNone result → (size : Size) → sizes.side size ≢ side }
    {
        for size in Size::all() {
            if size.side() == side {
                return Some(size);
            }
        }
        None
    }

    // The standard's table.
    #[rattlefmt::skip]
    #[tactic(auto, unfolding(crate::specs::Sizes::row))]
    fn row(self) -> Row
        ensures side { result.side ≡ sizes.side self }
        ensures region { result.region ≡ sizes.region self }
        ensures regions { result.regions ≡ sizes.regions self }
        ensures data_words { result.data_words ≡ sizes.data_words self }
        ensures check_words { result.check_words ≡ sizes.check_words self }
        ensures blocks { result.blocks ≡ sizes.blocks self }
    {
        match self {
            Size::Side10  => Row { side:  10, region:  8, regions:  1, data_words:    3, check_words:   5, blocks: 1 },
            Size::Side12  => Row { side:  12, region: 10, regions:  1, data_words:    5, check_words:   7, blocks: 1 },
            Size::Side14  => Row { side:  14, region: 12, regions:  1, data_words:    8, check_words:  10, blocks: 1 },
            Size::Side16  => Row { side:  16, region: 14, regions:  1, data_words:   12, check_words:  12, blocks: 1 },
            Size::Side18  => Row { side:  18, region: 16, regions:  1, data_words:   18, check_words:  14, blocks: 1 },
            Size::Side20  => Row { side:  20, region: 18, regions:  1, data_words:   22, check_words:  18, blocks: 1 },
            Size::Side22  => Row { side:  22, region: 20, regions:  1, data_words:   30, check_words:  20, blocks: 1 },
            Size::Side24  => Row { side:  24, region: 22, regions:  1, data_words:   36, check_words:  24, blocks: 1 },
            Size::Side26  => Row { side:  26, region: 24, regions:  1, data_words:   44, check_words:  28, blocks: 1 },
            Size::Side32  => Row { side:  32, region: 14, regions:  4, data_words:   62, check_words:  36, blocks: 1 },
            Size::Side36  => Row { side:  36, region: 16, regions:  4, data_words:   86, check_words:  42, blocks: 1 },
            Size::Side40  => Row { side:  40, region: 18, regions:  4, data_words:  114, check_words:  48, blocks: 1 },
            Size::Side44  => Row { side:  44, region: 20, regions:  4, data_words:  144, check_words:  56, blocks: 1 },
            Size::Side48  => Row { side:  48, region: 22, regions:  4, data_words:  174, check_words:  68, blocks: 1 },
            Size::Side52  => Row { side:  52, region: 24, regions:  4, data_words:  204, check_words:  84, blocks: 2 },
            Size::Side64  => Row { side:  64, region: 14, regions: 16, data_words:  280, check_words: 112, blocks: 2 },
            Size::Side72  => Row { side:  72, region: 16, regions: 16, data_words:  368, check_words: 144, blocks: 4 },
            Size::Side80  => Row { side:  80, region: 18, regions: 16, data_words:  456, check_words: 192, blocks: 4 },
            Size::Side88  => Row { side:  88, region: 20, regions: 16, data_words:  576, check_words: 224, blocks: 4 },
            Size::Side96  => Row { side:  96, region: 22, regions: 16, data_words:  696, check_words: 272, blocks: 4 },
            Size::Side104 => Row { side: 104, region: 24, regions: 16, data_words:  816, check_words: 336, blocks: 6 },
            Size::Side120 => Row { side: 120, region: 18, regions: 36, data_words: 1050, check_words: 408, blocks: 6 },
            Size::Side132 => Row { side: 132, region: 20, regions: 36, data_words: 1304, check_words: 496, blocks: 8 },
        }
    }

    /// Modules along a side of the symbol, finder patterns included.
    pub fn side(self) -> u16
        ensures value { result ≡ sizes.side self }
        ensures sound { sizes.SizeIsSound self }
    {
        self.row().side
    }

    /// Modules along a side of one data region, without its finder pattern.
    pub fn region(self) -> u16
        ensures value { result ≡ sizes.region self }
        ensures sound { sizes.SizeIsSound self }
    {
        self.row().region
    }

    /// The number of data regions of the symbol.
    pub fn regions(self) -> u16
        ensures value { result ≡ sizes.regions self }
        ensures sound { sizes.SizeIsSound self }
    {
        self.row().regions
    }

    /// The number of regions in a row of them, and in a column.
    pub fn across(self) -> u16
        ensures value { result ≡ sizes.across self }
        ensures sound { sizes.SizeIsSound self }
    {
        self.side() / (self.region() + 2)
    }

    /// Modules along a side of the mapping matrix: the regions together, without their finder patterns.
    pub fn mapping(self) -> u16
        ensures value { result ≡ sizes.mapping self }
        ensures sound { sizes.SizeIsSound self }
    {
        self.across() * self.region()
    }

    /// The number of data codewords of the symbol.
    pub fn data_words(self) -> usize
        ensures value { result ≡ sizes.data_words self }
        ensures sound { sizes.SizeIsSound self }
    {
        self.row().data_words as usize
    }

    /// The number of error correction codewords of the symbol, those of all blocks together.
    pub fn check_words(self) -> usize
        ensures value { result ≡ sizes.check_words self }
        ensures sound { sizes.SizeIsSound self }
    {
        self.row().check_words as usize
    }

    /// The number of interleaved blocks of the symbol.
    pub fn blocks(self) -> usize
        ensures value { result ≡ sizes.blocks self }
        ensures sound { sizes.SizeIsSound self }
    {
        self.row().blocks as usize
    }

    /// The number of all codewords of the symbol: its data codewords and its error correction codewords.
    pub fn all_words(self) -> usize
        ensures value { result ≡ sizes.all_words self }
        ensures sound { sizes.SizeIsSound self }
    {
        self.data_words() + self.check_words()
    }

    /// The number of data codewords of each block.
    pub fn block_data(self) -> usize
        ensures value { result ≡ sizes.block_data self }
        ensures sound { sizes.SizeIsSound self }
    {
        self.data_words() / self.blocks()
    }

    /// The number of error correction codewords of each block.
    pub fn block_checks(self) -> usize
        ensures value { result ≡ sizes.block_checks self }
        ensures sound { sizes.SizeIsSound self }
    {
        self.check_words() / self.blocks()
    }

    /// The number of all codewords of each block: its data codewords and its error correction codewords.
    pub fn block_length(self) -> usize
        ensures value { result ≡ sizes.block_length self }
        ensures sound { sizes.SizeIsSound self }
    {
        self.all_words() / self.blocks()
    }

    /// The number of wrong codewords in one block that can be put right: half its error correction codewords, rounded
    /// down.
    pub fn limit(self) -> usize
        ensures value { result ≡ sizes.limit self }
        ensures sound { sizes.SizeIsSound self }
    {
        self.block_checks() / 2
    }
}

// The sixteen spare bytes of a page, by the spare table.
ghost use Rattle.std.specs.Prelude.{◌≡◌, ◌+◌, ◌≤◌, ◌<◌, length};
ghost use Rattle.rules.specs.Spare.{number_in, kind_in, kind_byte, address_in, in_table, spare_bytes};
ghost use Rattle.rules.specs.WellFormed.{bad_mark};
ghost use Rattle.nand.specs.Entries.{Word, OfTable, kind_told, is_entry_of};

use super::bytes::all_255;
use rules::kind::Kind;
use rules::page::NUMBER_LIMIT;

// Four bytes of 255.
const ALL: u32 = u32::MAX;

// The sixteen spare bytes of a page.
#[derive(Clone, Copy)]
pub struct Marks<'a> {
    pub bytes: &'a [u8],
    ghost sixteen: { length bytes.now ≡ 16 },
}

// Four bytes from place i on, low byte first.
fn word_at(t: &[u8], i: usize) -> u32
    requires { i + 4 ≤ length t.now }
    ensures { Word t.now i result }
{
    u32::from_le_bytes([t[i], t[i + 1], t[i + 2], t[i + 3]])
}

impl<'a> Marks<'a> {
    pub fn number(&self) -> u32
        ensures { result ≡ number_in self.now.bytes.now }
    {
        word_at(self.bytes, 0)
    }

    // The kind that they name, if they name one.
    pub fn kind(&self) -> Option<Kind>
        ensures { result ≡ kind_told (kind_in self.now.bytes.now) }
    {
        Kind::try_from(self.bytes[4]).ok()
    }

    pub fn address(&self) -> u16
        ensures { result ≡ address_in self.now.bytes.now }
    {
        u16::from_le_bytes([self.bytes[6], self.bytes[7]])
    }

    // Whether they carry the mark of a bad block.
    pub fn is_bad_mark(&self) -> bool
        ensures { result ≡ bad_mark self.now.bytes.now }
    {
        self.bytes[5] != 255
    }

    // Whether these are bytes of the table.
    pub fn in_table(&self) -> bool
        ensures { result ≡ in_table self.now.bytes.now }
    {
        let n = self.number();
        let number = (1 <= n) & (n <= NUMBER_LIMIT);
        let kind = self.kind().is_some();
        let status = self.bytes[5] == 255;
        number & kind & status & all_255(&self.bytes[8..16])
    }

    // Whether they are those of the entry with this number, kind and logical page: compared four at a time.
    pub fn is_entry(&self, number: u32, kind: Kind, address: usize) -> bool
        requires { OfTable number × (address < 4294967296) }
        ensures { result ≡ is_entry_of self.now.bytes.now number (kind_byte kind) address }
    {
        let t = self.bytes;
        // The second four: kind, block status 255, logical page.
        let middle = usize::from(u8::from(kind)) + 65280 + address * 65536;
        let same = (word_at(t, 0) == number) & (word_at(t, 4) as usize == middle);
        let rest = (word_at(t, 8) == ALL) & (word_at(t, 12) == ALL);
        same & rest
    }
}

// The bytes of a page with this number, kind and logical page. The kind is its byte: the clause promises the bytes of any byte, and a `Kind` would ask for more.
pub fn spare_bytes(number: u32, kind: u8, address: usize) -> [u8; 16]
    ensures { result ≡ spare_bytes number kind address }
{
    let number = number.to_le_bytes();
    let address = address.to_le_bytes();
    [
        number[0], number[1], number[2], number[3], kind, 255, address[0], address[1], 255, 255,
        255, 255, 255, 255, 255, 255,
    ]
}

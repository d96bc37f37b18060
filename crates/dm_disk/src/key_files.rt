//! The names of the files of a set in a folder.

ghost use Rattle.std.specs.Prelude.{◌≡◌, ◌<◌, ◌^◌, ◌/◌, ◌%◌, ◌∷◌, ◌++◌, [], ℕ, Some, Err, IsErr, IfOk, IfSome, false};
ghost use Rattle.std.specs.Fmt.{digit_glyph};
ghost use Rattle.dm_disk.specs.Disk.{key_name, key_path, path_in};

use arrayvec::ArrayString;
use dm_store::StoreFault;

// The value of a lower-case hexadecimal digit.
fn digit_of(byte: u8) -> Option<u16>
    ensures named { IfSome result (λ digit. (digit < 16) × (byte ≡ digit_glyph false digit)) }
    ensures found { (digit : ℕ) → digit < 16 → byte ≡ digit_glyph false digit → result ≡ Some digit }
{
    match byte {
        b'0'..=b'9' => Some(u16::from(byte - b'0')),
        b'a'..=b'f' => Some(u16::from(byte - b'a') + 10),
        _ => None,
    }
}

/// The key whose file has this name.
#[tactic(auto, unfolding(crate::specs::Disk::key_name))]
pub fn key_of(name: &[u8]) -> Option<u16>
    ensures named { IfSome result (λ key. name.now ≡ key_name key) }
    ensures found { (key : ℕ) → key < 2 ^ 16 → name.now ≡ key_name key → result ≡ Some key }
{
    let [a, b, c, d] = name else {
        return None;
    };
    let high = digit_of(*a)? * 16 + digit_of(*b)?;
    let low = digit_of(*c)? * 16 + digit_of(*d)?;
    Some(high * 256 + low)
}

// The lower-case hexadecimal digit of a value.
fn glyph_of(digit: u16) -> char
    requires { digit < 16 }
    ensures glyph { result ≡ digit_glyph false digit }
    ensures ascii { result < 128 }
{
    let byte = digit as u8;
    char::from(if byte < 10 {
        b'0' + byte
    } else {
        b'a' + (byte - 10)
    })
}

// The name of a key's file.
#[tactic(auto, using(std::proofs::lemmas::Str::encode_ascii), unfolding(crate::specs::Disk::key_name))]
fn name_of(key: u16) -> ArrayString<4>
    ensures { result.bytes ≡ key_name key }
{
    let mut name = ArrayString::new();
    name.push(glyph_of(key / 256 / 16));
    name.push(glyph_of(key / 256 % 16));
    name.push(glyph_of(key % 256 / 16));
    name.push(glyph_of(key % 256 % 16));
    name
}

/// A path that takes no memory. The system takes no longer one.
pub type PathText = ArrayString<4095>;

// A path with more at its end.
pub(crate) fn with_end(path: &str, end: &str) -> Result<PathText, StoreFault>
    ensures whole { IfOk result (λ whole. whole.bytes ≡ path.now ++ end.now) }
    ensures device { IsErr result → result ≡ Err StoreFault.Device }
{
    let mut whole = PathText::from(path).or(Err(StoreFault::Device))?;
    whole.try_push_str(end).or(Err(StoreFault::Device))?;
    Ok(whole)
}

/// The path of a key's file in a folder.
///
/// # Errors
/// `Device` where it is longer than any that the system takes.
pub fn path_of(folder: &str, key: u16) -> Result<PathText, StoreFault>
    ensures path { IfOk result (λ path. path.bytes ≡ key_path folder.now key) }
    ensures device { IsErr result → result ≡ Err StoreFault.Device }
{
    let start = with_end(folder, "/")?;
    with_end(start.as_str(), name_of(key).as_str())
}

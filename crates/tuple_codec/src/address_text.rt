//! Addresses as texts of 32 characters, written and read.

ghost use Rattle.std.specs.Prelude.{◌≡◌, ◌+◌, ◌*◌, ◌<◌, ◌^◌, length};
ghost use Rattle.tuple_codec.specs.AddressTexts.{
  ReadsAddress,
  address_bytes,
  address_text,
  bits_of_letter,
  five_bytes,
  letter,
  letters,
  number_of_eight,
  number_of_five,
};

use crate::addresses::Address;

impl Address {
    /// The address as 32 characters of `0123456789abcdefghijklmnopqrstuv`.
    pub fn text(&self) -> [u8; 32]
        ensures { result ≡ address_text self.now.0 }
    {
        let mut text = [0; 32];
        text[..8].copy_from_slice(&eight_letters(forty_bits(&self.0[..5])));
        text[8..16].copy_from_slice(&eight_letters(forty_bits(&self.0[5..10])));
        text[16..24].copy_from_slice(&eight_letters(forty_bits(&self.0[10..15])));
        text[24..32].copy_from_slice(&eight_letters(forty_bits(&self.0[15..20])));
        text
    }

    /// The address of a text, or None where no address has it.
    pub fn read(text: &[u8]) -> Option<Address>
        ensures { ReadsAddress text.now result }
    {
        if text.len() != 32 {
            return None;
        }
        let address = Address(twenty_bytes(text));
        if &address.text()[..] == text {
            Some(address)
        } else {
            None
        }
    }
}

/// Forty bits as text.
fn eight_letters(number: u64) -> [u8; 8]
    ensures { result ≡ letters 8 number }
{
    [
        letter((number >> 35) % 32),
        letter((number >> 30) % 32),
        letter((number >> 25) % 32),
        letter((number >> 20) % 32),
        letter((number >> 15) % 32),
        letter((number >> 10) % 32),
        letter((number >> 5) % 32),
        letter(number % 32),
    ]
}

/// The number of five bytes.
fn forty_bits(bytes: &[u8]) -> u64
    requires { length bytes.now ≡ 5 }
    ensures { result ≡ number_of_five bytes.now }
{
    u64::from_be_bytes([0, 0, 0, bytes[0], bytes[1], bytes[2], bytes[3], bytes[4]])
}

/// The character of five bits.
#[tactic(auto, unfolding(crate::specs::AddressTexts::letter))]
fn letter(bits: u64) -> u8
    requires { bits < 32 }
    ensures { result ≡ letter bits }
{
    if bits < 10 {
        b'0' + bits as u8
    } else {
        b'a' - 10 + bits as u8
    }
}

/// The bytes that 32 characters stand for.
fn twenty_bytes(text: &[u8]) -> [u8; 20]
    requires { length text.now ≡ 32 }
    ensures { result ≡ address_bytes text.now }
{
    let mut bytes = [0; 20];
    bytes[..5].copy_from_slice(&five_bytes(of_letters(&text[..8])));
    bytes[5..10].copy_from_slice(&five_bytes(of_letters(&text[8..16])));
    bytes[10..15].copy_from_slice(&five_bytes(of_letters(&text[16..24])));
    bytes[15..20].copy_from_slice(&five_bytes(of_letters(&text[24..32])));
    bytes
}

/// The last five bytes of a number.
fn five_bytes(number: u64) -> [u8; 5]
    ensures { result ≡ five_bytes number }
{
    let bytes = number.to_be_bytes();
    [bytes[3], bytes[4], bytes[5], bytes[6], bytes[7]]
}

/// The number of eight characters.
fn of_letters(text: &[u8]) -> u64
    requires { length text.now ≡ 8 }
    ensures { result ≡ number_of_eight text.now }
{
    let high = two_letters(text[0], text[1]) * 1024 + two_letters(text[2], text[3]);
    let low = two_letters(text[4], text[5]) * 1024 + two_letters(text[6], text[7]);
    high * 0x10_0000 + low
}

/// The bits of two characters.
fn two_letters(first: u8, second: u8) -> u64
    ensures value { result ≡ bits_of_letter first * 32 + bits_of_letter second }
    ensures bound { result < 1024 }
{
    bits_of_letter(first) * 32 + bits_of_letter(second)
}

/// The bits of a character.
#[tactic(auto, unfolding(crate::specs::AddressTexts::bits_of_letter))]
fn bits_of_letter(byte: u8) -> u64
    ensures value { result ≡ bits_of_letter byte }
    ensures bound { result < 32 }
{
    match byte {
        b'0'..=b'9' => u64::from(byte - b'0'),
        b'a'..=b'v' => u64::from(byte - b'a' + 10),
        _ => 0,
    }
}

ghost use Rattle.std.specs.Prelude.{◌≡◌, ◌≤◌, All, OnErr, length, if◌then◌else◌, Ok, Err, nat_lt};
ghost use Rattle.std.specs.List.{prefix_len};
ghost use Rattle.text.specs.Fault.{cause_refusal};
ghost use Rattle.text.specs.Bytes.{expect, expect_all, fault, place, starts};
ghost use Rattle.text.specs.Numeral.{field, is_digit, leading_digits, leading_zero, number_after, numeral};
ghost use Rattle.text.specs.Views.{Reads, ReadsField, bytes_of, left_of};
ghost use Rattle.text.specs.declared.fault.NumeralFault.TheVariants.{LeadingZero, TooLarge};

use crate::cursor::Cursor;
use crate::fault::{LineCause, NumeralFault};

const LARGEST: u64 = 65_535;

// How many digits stand in front of these bytes.
fn digits_len(bytes: &[u8]) -> usize
    ensures value { result ≡ prefix_len is_digit bytes.now }
    ensures within { result ≤ length bytes.now }
{
    bytes
        .iter()
        .take_while(|byte| byte.is_ascii_digit())
        .count()
}

// The digits in front of these bytes.
#[tactic(auto, using(crate::proofs::Digits::leading_taken))]
fn leading_digits(bytes: &[u8]) -> &[u8]
    ensures value { result.now ≡ leading_digits bytes.now }
    ensures within { length result.now ≤ length bytes.now }
{
    &bytes[..digits_len(bytes)]
}

// The value of a numeral of these digits, of which the first stands at this place. By hand, since `parse` takes a text and would tell
// neither a leading zero nor which of the two faults it met.
#[tactic(auto, using(crate::proofs::Digits::number_grows))]
fn numeral_value(digits: &[u8], start: usize) -> Result<u64, NumeralFault>
    requires { All (λ d. 48 ≤ d) digits.now }
    ensures { result ≡ (if leading_zero digits.now then Err (LeadingZero start) else if nat_lt 65535 (number_after 0 digits.now) then Err (TooLarge start) else Ok (number_after 0 digits.now)) }
{
    if let [b'0', _, ..] = digits {
        return Err(NumeralFault::LeadingZero(start));
    }
    let mut value = 0;
    for digit in digits {
        value = 10 * value + u64::from(digit - b'0');
        if value > LARGEST {
            return Err(NumeralFault::TooLarge(start));
        }
    }
    Ok(value)
}

impl<'a> Cursor<'a> {
    pub(crate) fn new(bytes: &'a [u8]) -> Cursor<'a>
        ensures same { bytes_of result ≡ bytes.now }
        ensures left { left_of result ≡ bytes.now }
    {
        Cursor { bytes, at: 0 }
    }

    // The bytes that are left to read.
    pub(crate) fn left(&self) -> &'a [u8]
        ensures { result.now ≡ left_of self.now }
    {
        &self.bytes[self.at..]
    }

    // The place of the next byte in the line.
    fn place(&self) -> usize
        ensures { result ≡ place (bytes_of self.now) (left_of self.now) }
    {
        self.at
    }

    // The fault that the next byte is, or the end of the bytes.
    pub(crate) fn unexpected(&self) -> LineCause
        ensures { cause_refusal result ≡ fault 18 (bytes_of self.now) (left_of self.now) }
    {
        LineCause::Byte(self.place())
    }

    // Whether this byte comes next.
    pub(crate) fn sees(&self, byte: u8) -> bool
        ensures { result ≡ starts byte (left_of self.now) }
    {
        self.left().first() == Some(&byte)
    }

    // Reads this byte. Where another one comes, nothing is read.
    pub(crate) fn expect_byte(&mut self, byte: u8) -> Result<(), LineCause>
        ensures read { Reads (λ _ left. left) (expect byte) self.old self.new result }
        ensures kept { OnErr result (left_of self.new ≡ left_of self.old) }
    {
        match self.left() {
            [first, ..] if *first == byte => {
                self.at += 1;
                Ok(())
            }
            _ => Err(self.unexpected()),
        }
    }

    // Reads the bytes of this word, as far as they come next.
    pub(crate) fn word(&mut self, word: &[u8]) -> Result<(), LineCause>
        ensures { Reads (λ _ left. left) (expect_all word.now) self.old self.new result }
    {
        for byte in word {
            self.expect_byte(*byte)?;
        }
        Ok(())
    }

    // Reads a numeral. The answer is None where no digit comes next.
    #[tactic(auto, using(crate::proofs::Digits::leading_above, crate::proofs::Digits::numeral_none, crate::proofs::Digits::numeral_some))]
    fn numeral(&mut self) -> Result<Option<u64>, NumeralFault>
        ensures { ReadsField numeral self.old self.new result }
    {
        let digits = leading_digits(self.left());
        if digits.is_empty() {
            return Ok(None);
        }
        let value = numeral_value(digits, self.place())?;
        self.at += digits.len();
        Ok(Some(value))
    }

    // Reads a separator and the numeral behind it. The answer is None where another byte comes.
    #[tactic(auto, unfolding(crate::specs::Numeral::field))]
    pub(crate) fn field(&mut self, separator: u8) -> Result<Option<u64>, NumeralFault>
        ensures { ReadsField (field separator) self.old self.new result }
    {
        let Ok(()) = self.expect_byte(separator) else {
            return Ok(None);
        };
        self.numeral()
    }
}

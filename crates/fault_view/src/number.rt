ghost use Rattle.fault_view.specs.Inside.{IsNumber};

use itoa::Buffer;

/// The number that a text is in decimal without a sign or a leading zero.
pub fn number_of(text: &str) -> Option<u32>
    ensures { IsNumber text.now result }
{
    let number: u32 = text.parse().ok()?;
    let mut buffer = Buffer::new();
    (buffer.format(number) == text).then_some(number)
}

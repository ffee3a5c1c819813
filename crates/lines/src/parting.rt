// Where a line of an input ends: at the first byte of one kind.
ghost use Rattle.std.specs.Prelude.{◌≡◌, ◌≤◌, length};
ghost use Rattle.lines.specs.Parting.{before};

// How many bytes stand before the first b.
pub fn bytes_before(line: &[u8], b: u8) -> usize
    ensures { (result ≡ before b line.now) × (result ≤ length line.now) }
{
    line.iter().take_while(|&&a| a != b).count()
}

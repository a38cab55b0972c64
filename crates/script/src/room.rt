// Room for a history.
ghost use Rattle.std.specs.Prelude.{◌≡◌, replicate};

// A history has at most 500,000 bytes, and one byte more tells a longer one.
pub const LONGEST: usize = 500000;

// The array before it is filled. A call makes it, since the check would count the bytes of a local array one by one, for seconds and a gigabyte.
pub fn blank_input() -> [u8; 500001]
    ensures { result ≡ replicate 500001 0 }
{
    [0u8; 500001]
}

//! The zeros that a heap begins with.
ghost use Rattle.std.specs.Prelude.{◌≡◌, ◌<◌, replicate};

/// Words that are 0. They lie in the program's file and are never written, so a heap that begins as a copy of some of
/// them takes no memory for them.
static ZEROS: [u64; 327_680] = [0; 327_680];

/// How many zeros there must be besides, where so many are needed.
pub(crate) fn zeros_besides(count: usize) -> usize
    ensures enough { 327680 < count → result ≡ count }
{
    if count <= ZEROS.len() { 0 } else { count }
}

/// So many zeros: the program's own where those are enough, and else the others.
pub(crate) fn zeros<'a>(others: &'a [u64], count: usize) -> &'a [u64]
    requires enough { 327680 < count → others.now ≡ replicate count 0 }
    ensures zeros { result.now ≡ replicate count 0 }
{
    if count <= ZEROS.len() {
        return &ZEROS[..count];
    }
    others
}

// What a replay writes of a window (document 02, U3).
ghost use Rattle.std.specs.Prelude.{◌+◌, ◌*◌, ◌≤◌, ◌<◌, ◌≡◌, length};
ghost use Rattle.replaying.specs.Written.{answer_bytes, window_in, put_at, FitsBytes};

use reply::Answer;

// The bytes of a window.
pub const WINDOW: usize = 8;

// The eight bytes of a window, from the answer at subframe n: n, kind, resource in two, b0, b1, two zeros; none for "taken" and "no window".
#[tactic(auto, unfolding(crate::specs::Written::window_bytes))]
pub(crate) fn window_bytes(n: u16, answer: Answer) -> Option<[u8; WINDOW]>
    requires { (n ≤ 255) × FitsBytes answer }
    ensures { result ≡ window_in n answer }
{
    match answer {
        Answer::Taken | Answer::NoWindow => None,
        Answer::Silent => Some([n as u8, 0, 0, 0, 0, 0, 0, 0]),
        Answer::Sent(r) => {
            let [low, high] = r.resource.number().to_le_bytes();
            Some([
                n as u8,
                r.kind as u8,
                low,
                high,
                r.b0 as u8,
                r.b1 as u8,
                0,
                0,
            ])
        }
    }
}

// An output, and how many windows are written in it. `chunks_exact_mut` is no substitute for the place that `push` counts: when it is
// done, a proof knows the output's length and not its bytes.
#[derive(Drop)]
pub(crate) struct Windows<'a> {
    out: &'a mut [u8],
    pub(crate) written: u16,
}

impl<'a> Windows<'a> {
    // An output with no window written.
    pub(crate) fn new(out: &'a mut [u8]) -> Windows<'a>
        ensures same_reference { result.out.ghost_name ≡ out.entry.ghost_name }
        ensures same { result.out.now ≡ out.old }
        ensures none { result.written ≡ 0 }
    {
        Windows { out, written: 0 }
    }

    // Writes what the answer at subframe n gives behind the windows that are written.
    pub(crate) fn push(&mut self, n: u16, answer: Answer)
        requires n_bound { (n ≤ 255) × FitsBytes answer }
        requires windows_bound { self.old.written < 65535 }
        requires answer_in_bounds { 8 * self.old.written + length (answer_bytes n answer) ≤ length self.old.out.now }
        ensures same_reference { self.new.out.ghost_name ≡ self.old.out.ghost_name }
        ensures value { 8 * self.new.written ≡ 8 * self.old.written + length (answer_bytes n answer) }
        ensures out_after { self.new.out.now ≡ put_at (8 * self.old.written) (answer_bytes n answer) self.old.out.now }
    {
        if let Some(bytes) = window_bytes(n, answer) {
            let at = WINDOW * self.written as usize;
            self.out[at..at + WINDOW].copy_from_slice(&bytes);
            self.written += 1;
        }
    }
}

// A line of figures as text, put into a buffer that the caller lends, from a place on.
#![tactic(auto)]

ghost use Rattle.std.specs.Prelude.{◌≡◌, ◌+◌, ◌≤◌, length};
ghost use Rattle.transcript.specs.Room.{Puts, end_in, put_in};
ghost use Rattle.figures.specs.Figures.{figures_line, room_for};

// The most bytes of a figure, 20 digits, and the space or newline after it.
const WIDTH: usize = 21;

// Puts a line that has room. (A `transcript` Line would look for that room again at each piece.)
fn put_line(out: &mut [u8], at: usize, first: u64, rest: &[u64]) -> usize
    requires { at + room_for rest.now ≤ length out.old }
    ensures upper_bound { result ≤ at + room_for rest.now }
    ensures puts { Puts out.old at (figures_line first rest.now) result out.new }
{
    let mut end = transcript::put_u64(out, at, first);
    for &x in rest {
        let next = transcript::put_word(out, end, b" ");
        end = transcript::put_u64(out, next, x);
    }
    transcript::put_word(out, end, b"\n")
}

// A figure and others after it, as a line. The answer is the place after it; where there is no room for it nothing is put, and it is the place that was given.
pub fn put_figures(out: &mut [u8], at: usize, first: u64, rest: &[u64]) -> usize
    ensures upper_bound { result ≤ at + room_for rest.now }
    ensures value { result ≡ end_in (room_for rest.now) out.old at (figures_line first rest.now) }
    ensures out_after { out.new ≡ put_in (room_for rest.now) out.old at (figures_line first rest.now) }
{
    // of more figures than this the product below could wrap
    if out.len() / WIDTH <= rest.len() {
        return at;
    }
    if !transcript::has_room(out.len(), at, WIDTH * (rest.len() + 1)) {
        return at;
    }
    put_line(out, at, first, rest)
}

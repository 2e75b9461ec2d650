// Bytes moved between a memory and a slice, or inside a memory: its length is the number of addresses, and they turn over at its ends.
ghost use Rattle.std.specs.Prelude.{◌≡◌, true, false, ℕ, ◌+◌, ◌^◌, ◌≤◌, ◌<◌, length};
ghost use Rattle.words.specs.Steps.{steps};
ghost use Rattle.words.specs.Spans.{place_of, reach_of, wrapped_to, spread, carried, Within};

// The j-th place from `start` on, counted from 0.
fn place(down: bool, start: usize, j: usize) -> usize
    requires { (down ≡ true → j ≤ start) × (down ≡ false → start + j < 2 ^ 64) }
    ensures { result ≡ place_of down start j }
{
    if down { start - j } else { start + j }
}

// How many places from `at` on there are before the addresses turn over.
pub fn reach(size: usize, down: bool, at: usize) -> usize
    requires { at < size }
    ensures { result ≡ reach_of size down at }
{
    if down { at + 1 } else { size - at }
}

// Where the addresses go on after they turned over.
fn wrapped_to(size: usize, down: bool) -> usize
    requires { 0 < size }
    ensures { result ≡ wrapped_to size down }
{
    if down { size - 1 } else { 0 }
}

// n bytes from `from` on to `to` on. One loop for both directions of both: the compiler makes a loop of each.
fn copy(
    dst: &mut [u8],
    to: usize,
    to_down: bool,
    src: &[u8],
    from: usize,
    from_down: bool,
    n: usize,
)
    requires { Within to_down to n (length dst.old) × Within from_down from n (length src.now) }
    ensures { dst.new ≡ spread (place_of to_down to) (place_of from_down from) src.now dst.old n }
{
    for j in 0..n {
        let source = place(from_down, from, j);
        let target = place(to_down, to, j);
        dst[target] = src[source];
    }
}

// The first n device bytes into the memory.
pub fn store(memory: &mut [u8], down: bool, at: usize, device: &[u8], n: usize)
    requires { (at < length memory.old) × (n ≤ length memory.old) × (n ≤ length device.now) }
    ensures { (w : ℕ) → length memory.old ≡ 2 ^ w → memory.new ≡ spread (steps w down at) (λ (j : ℕ). j) device.now memory.old n }
{
    let size = memory.len();
    let first = n.min(reach(size, down, at));
    copy(memory, at, down, device, 0, false, first);
    if first < n {
        copy(
            memory,
            wrapped_to(size, down),
            down,
            device,
            first,
            false,
            n - first,
        );
    }
}

// n bytes of the memory into the first places of the room.
pub fn load(memory: &[u8], down: bool, at: usize, room: &mut [u8], n: usize)
    requires { (at < length memory.now) × (n ≤ length memory.now) × (n ≤ length room.old) }
    ensures { (w : ℕ) → length memory.now ≡ 2 ^ w → room.new ≡ spread (λ (j : ℕ). j) (steps w down at) memory.now room.old n }
{
    let size = memory.len();
    let first = n.min(reach(size, down, at));
    copy(room, 0, false, memory, at, down, first);
    if first < n {
        copy(
            room,
            first,
            false,
            memory,
            wrapped_to(size, down),
            down,
            n - first,
        );
    }
}

// n bytes from `from` on to `to` on, each read when it is moved. One loop for both directions of both.
pub fn carry(memory: &mut [u8], from: usize, from_down: bool, to: usize, to_down: bool, n: usize)
    requires { Within from_down from n (length memory.old) × Within to_down to n (length memory.old) }
    ensures { memory.new ≡ carried (place_of to_down to) (place_of from_down from) memory.old n }
{
    for j in 0..n {
        let source = place(from_down, from, j);
        let target = place(to_down, to, j);
        memory[target] = memory[source];
    }
}

// One held byte put n times.
pub fn fill(memory: &mut [u8], from: usize, to: usize, to_down: bool, n: usize)
    requires { (from < length memory.old) × Within to_down to n (length memory.old) }
    ensures { memory.new ≡ carried (place_of to_down to) (λ (j : ℕ). from) memory.old n }
{
    let byte = memory[from];
    for j in 0..n {
        let target = place(to_down, to, j);
        memory[target] = byte;
    }
}

// Suggestions, kept in order in a slice of numbers.
#![tactic(auto)]

ghost use Rattle.std.specs.Prelude.{◌≡◌, ◌+◌, ◌*◌, ◌/◌, ◌≤◌, ◌<◌, length};
ghost use Rattle.suggestion_list.specs.Rows.{entry_width, entry_numbers};
ghost use Rattle.suggestion_list.specs.Helpers.{Place, Moved, Added, SameList};

// How many numbers an entry has.
pub const ENTRY_WIDTH: usize = 3;

// A replacement that counts: the nanoseconds that it gives, the offset of the byte that is replaced, and the byte that takes its place.
#[derive(Clone, Copy, PartialEq, Eq, Debug)]
pub struct Suggestion {
    pub nanos: i64,
    pub offset: u16,
    pub byte: u8,
}

// Its entry.
impl From<Suggestion> for [i64; ENTRY_WIDTH] {
    ghost from_gives = { λ x r. r ≡ entry_numbers x };

    fn from(x: Suggestion) -> Self {
        [x.nanos, i64::from(x.offset), i64::from(x.byte)]
    }
}

// Where an entry of so many nanoseconds goes among these: behind those of as many or fewer.
fn place_for(entries: &[i64], nanos: i64) -> usize
    ensures { Place entries.now (length entries.now / entry_width) nanos result }
{
    let (entries, _) = entries.as_chunks::<ENTRY_WIDTH>();
    entries.partition_point(|entry| entry[0] <= nanos)
}

// Moves the numbers from `at` to `end` on by an entry, the last one first: `copy_within` calls the C library.
fn make_room(list: &mut [i64], at: usize, end: usize)
    requires { (at ≤ end) × (end + entry_width ≤ length list.old) }
    ensures { Moved list.old at end list.new }
{
    for i in (at..end).rev() {
        list[i + ENTRY_WIDTH] = list[i];
    }
}

// Puts an entry into its place among the first `count`, in a list that has room for it. It comes after all of the others by its offset and byte, so that
// those of as many nanoseconds stay before it. The count stands beside the list, since the part that holds the entries has no room for one more.
fn put(list: &mut [i64], count: usize, x: Suggestion)
    requires { count * entry_width + entry_width ≤ length list.old }
    ensures { Added x count list.old list.new }
{
    let end = count * ENTRY_WIDTH;
    let at = place_for(&list[..end], x.nanos) * ENTRY_WIDTH;
    make_room(list, at, end);
    base::store(list, at, &<[i64; ENTRY_WIDTH]>::from(x));
}

// The suggestions so far, in order in a lent slice of numbers as far as it has room, and how many there are.
#[derive(Drop)]
pub struct Suggestions<'a> {
    pub list: &'a mut [i64],
    pub count: usize,
}

impl<'a> Suggestions<'a> {
    // None yet.
    pub fn new(list: &'a mut [i64]) -> Suggestions<'a>
        ensures same_list { result.list.ghost_name ≡ list.entry.ghost_name }
        ensures numbers { result.list.now ≡ list.old }
        ensures none { result.count ≡ 0 }
    {
        Suggestions { list, count: 0 }
    }

    // Puts an entry into its place, where the list has room for it, and counts it in any case.
    pub fn add(&mut self, x: Suggestion)
        requires { self.old.count < 0x10000 }
        ensures same_list { SameList self.old self.new }
        ensures counted { self.new.count ≡ self.old.count + 1 }
        ensures added { Added x self.old.count self.old.list.now self.new.list.now }
    {
        if self.count < self.list.len() / ENTRY_WIDTH {
            put(self.list, self.count, x);
        }
        self.count += 1;
    }
}

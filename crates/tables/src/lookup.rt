// A group of names, and the look-up of a name among them by its tag.
ghost use Rattle.std.specs.Prelude.{◌≡◌, ◌+◌, ◌≤◌, map, length, take, drop};
ghost use Rattle.tables.specs.LookUps.{looked_up, GoesOn};
ghost use Rattle.tables.specs.Tags.{tag_of};

// The names of a group, and their tags: these lie apart, since eight of them are tested at one load.
#[derive(Clone, Copy)]
pub struct Group<'a> {
    pub names: &'a [&'a [u8]],
    pub tags: &'a [u8],
    pub ghost tagged: { tags.now ≡ map tag_of (map (λ n. n.now) names.now) },
}

// Where a look-up stands: its row, among the names that it goes through, in the answer of `find_row` of the table; and how many names
// it has compared (02, 4/14). That goes up as names are tried, also for those that their tags tell apart: by one, or by as many as
// are passed over at once.
#[derive(Debug, Clone, Copy, PartialEq, Eq)]
pub struct LookUp {
    pub row: usize,
    pub compared: usize,
}

impl<'a> Group<'a> {
    // So many of its names, from `start` on.
    pub(crate) fn part(self, start: usize, size: usize) -> Group<'a>
        requires { start + size ≤ length self.names.now }
        ensures { map (λ n. n.now) result.names.now ≡ take size (drop start (map (λ n. n.now) self.entry.names.now)) }
    {
        let end = start + size;
        Group {
            names: &self.names[start..end],
            tags: &self.tags[start..end],
        }
    }

    // The row of a name among the group's, looked for in their order. A name's bytes are compared only where its tag is the part's;
    // one that is passed over counts as compared all the same. No `for`: a row is not followed by the next, but by the next of that tag.
    pub(crate) fn find(self, part: &[u8]) -> Option<LookUp>
        ensures { result ≡ looked_up part.now (map (λ n. n.now) self.entry.names.now) 0 }
    {
        let tag = tag_of(part);
        let first = LookUp {
            row: 0,
            compared: 0,
        };
        let mut at = pass_over(self.tags, first, tag);
        while at.row < self.names.len() {
            at.compared += 1;
            if lines::compare(part, self.names[at.row]).equal {
                return Some(at);
            }
            at.row += 1;
            at = pass_over(self.tags, at, tag);
        }
        None
    }
}

// The tag of a part; 0 where it is empty.
fn tag_of(part: &[u8]) -> u8
    ensures { result ≡ tag_of part.now }
{
    let size = part.len();
    if size == 0 {
        return 0;
    }
    ((size % 64 * 4 + usize::from(part[0]) + usize::from(part[size - 1]) % 32 * 8) % 256) as u8
}

// On to the first row with that tag, one by one; past the last where none has it.
fn next_row(tags: &[u8], from: LookUp, tag: u8) -> LookUp
    requires { (from.row ≤ length tags.now) × (from.compared ≤ from.row) }
    ensures { GoesOn tags.now tag from result }
{
    let mut compared = from.compared;
    for row in from.row..tags.len() {
        if tags[row] == tag {
            return LookUp { row, compared };
        }
        compared += 1;
    }
    LookUp {
        row: tags.len(),
        compared,
    }
}

// Likewise, passing over eight rows at a time while none of the eight has that tag; fewer than eight one by one. No `for`,
// which would come to these few as well and have to tell them apart.
fn pass_over(tags: &[u8], from: LookUp, tag: u8) -> LookUp
    requires { (from.row ≤ length tags.now) × (from.compared ≤ from.row) }
    ensures { GoesOn tags.now tag from result }
{
    let mut at = from;
    while 8 <= tags.len() - at.row {
        if !lines::lacks(tags, at.row, tag) {
            let passed = lines::first_of(tags, at.row, tag);
            return LookUp {
                row: at.row + passed,
                compared: at.compared + passed,
            };
        }
        at.row += 8;
        at.compared += 8;
    }
    next_row(tags, at, tag)
}

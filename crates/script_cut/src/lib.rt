// A line cut at a mark, and into six fields with a space between each two.
#![tactic(auto)]

ghost use Rattle.std.specs.Prelude.{◌≤◌, length, option_map};
ghost use Rattle.script_cut.specs.Cut.{UpTo, Next, Parts, texts};

// Six fields of a line, where they stand in it.
#[derive(Clone, Copy)]
pub struct Six<'a> {
    pub first: &'a [u8],
    pub second: &'a [u8],
    pub third: &'a [u8],
    pub fourth: &'a [u8],
    pub fifth: &'a [u8],
    pub sixth: &'a [u8],
}

// The first mark from an index on, or the end.
pub fn mark_from(line: &[u8], from: usize, mark: u8) -> usize
    requires { from ≤ length line.now }
    ensures { UpTo mark line.now from result }
{
    for i in from..line.len() {
        if line[i] == mark {
            return i;
        }
    }
    line.len()
}

// The next space behind one, or the end; at the end, the end.
fn next_from(line: &[u8], space: usize) -> usize
    ensures { Next line.now space result }
{
    if line.len() <= space {
        return line.len();
    }
    mark_from(line, space + 1, b' ')
}

// The six fields from an index on, where there are just six.
pub fn split_six(line: &[u8], from: usize) -> Option<Six<'_>>
    requires { from ≤ length line.now }
    ensures { Parts line.now from (option_map texts result) }
{
    let first = mark_from(line, from, b' ');
    let second = next_from(line, first);
    let third = next_from(line, second);
    let fourth = next_from(line, third);
    let fifth = next_from(line, fourth);
    let sixth = next_from(line, fifth);
    if line.len() <= fifth {
        return None;
    }
    if sixth < line.len() {
        return None;
    }
    Some(Six {
        first: &line[from..first],
        second: &line[first + 1..second],
        third: &line[second + 1..third],
        fourth: &line[third + 1..fourth],
        fifth: &line[fourth + 1..fifth],
        sixth: &line[fifth + 1..sixth],
    })
}

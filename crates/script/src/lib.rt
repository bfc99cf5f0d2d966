// A line of a script, over lent slices: what its six fields say.
#![tactic(auto)]

mod read;

pub use read::read_line;

// What a request and a response share. The key stands at the start of the buffer, the payload behind it, up to these indices.
#[derive(Clone, Copy)]
pub struct Call {
    pub time: u64,
    pub bare: usize,
    pub key: usize,
    pub payload: usize,
}

// A request: which block options it has, and where their bytes end, behind the payload and behind each other.
// An end stands beside each flag, also where the option is absent: the next part starts there.
#[derive(Clone, Copy)]
pub struct Request {
    pub call: Call,
    pub given1: bool,
    pub block1: usize,
    pub given2: bool,
    pub block2: usize,
}

// A response: whether the option is its own, and where the head ends, behind the payload.
#[derive(Clone, Copy)]
pub struct Response {
    pub call: Call,
    pub own: bool,
    pub head: usize,
}

#[derive(Clone, Copy)]
pub enum Line {
    Request(Request),
    Response(Response),
}

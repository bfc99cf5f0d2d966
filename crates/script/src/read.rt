// What the six fields of a line say: a request, or a response.
ghost use Rattle.std.specs.Prelude.{◌≡◌, ◌*◌, ◌≤◌, length};
ghost use Rattle.script_cut.specs.Cut.{lengths, texts};
ghost use Rattle.script.specs.Line.{request_of, response_of, line_of, CallRead, said_by, InBuffer};

use crate::{Call, Line, Request, Response};
use script_cut::{Six, split_six};
use script_fields::{bytes_field, is_given, number_field, option_field};

// What both kinds of line have: time, key, bare and payload.
fn call_of(six: Six<'_>, scratch: &mut [u8]) -> Option<Call>
    requires { lengths (texts six) ≤ 2 * length scratch.old }
    ensures { CallRead result (texts six.entry) scratch.new }
{
    let time = number_field(six.first)?;
    let bare = number_field(six.third)? as usize;
    let key = bytes_field(six.second, scratch, 0)?;
    let payload = bytes_field(six.sixth, scratch, key)?;
    Some(Call {
        time,
        bare,
        key,
        payload,
    })
}

fn request_of(six: Six<'_>, scratch: &mut [u8]) -> Option<Line>
    requires { lengths (texts six) ≤ 2 * length scratch.old }
    ensures scratch_after { said_by result scratch.new ≡ request_of (texts six.entry) }
    ensures in_buffer { InBuffer result scratch.new }
{
    let call = call_of(six, scratch)?;
    let block1 = option_field(six.fourth, scratch, call.payload)?;
    let block2 = option_field(six.fifth, scratch, block1)?;
    Some(Line::Request(Request {
        call,
        given1: is_given(six.fourth),
        block1,
        given2: is_given(six.fifth),
        block2,
    }))
}

fn response_of(six: Six<'_>, scratch: &mut [u8]) -> Option<Line>
    requires { lengths (texts six) ≤ 2 * length scratch.old }
    ensures scratch_after { said_by result scratch.new ≡ response_of (texts six.entry) }
    ensures in_buffer { InBuffer result scratch.new }
{
    let call = call_of(six, scratch)?;
    let own = number_field(six.fourth)?;
    if 1 < own {
        return None;
    }
    let head = bytes_field(six.fifth, scratch, call.payload)?;
    Some(Line::Response(Response {
        call,
        own: own == 1,
        head,
    }))
}

// A line without its end: its kind, a space, and six fields. The bytes of its fields go to the buffer, one behind the other.
pub fn read_line(line: &[u8], scratch: &mut [u8]) -> Option<Line>
    requires { length line.now ≤ 2 * length scratch.old }
    ensures scratch_after { said_by result scratch.new ≡ line_of line.now }
    ensures in_buffer { InBuffer result scratch.new }
{
    let [kind, b' ', ..] = line else {
        return None;
    };
    let six = split_six(line, 2)?;
    match *kind {
        b'Q' => request_of(six, scratch),
        b'P' => response_of(six, scratch),
        _ => None,
    }
}

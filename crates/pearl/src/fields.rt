// A call by the fields that it has: without a start condition, and with one.
ghost use Rattle.std.specs.Prelude.{◌≡◌};
ghost use Rattle.pearl.specs.Calls.{plain_call, start_call};

use crate::StartCondition;
use layout::{Call, Head, Mark, NO_LIST, Numbers};

// The call with these fields, the others 0.
pub(crate) fn plain_call(
    mark: Mark,
    number: u8,
    priority: u8,
    len: u8,
    list: Numbers,
    first: u32,
) -> Call
    ensures { result ≡ plain_call mark number priority len list first }
{
    let head = Head {
        mark,
        number,
        priority,
        len,
        kind: 0,
        interrupt: 0,
        endkind: 0,
        first,
        period: 0,
        endtime: 0,
    };
    Call { head, list }
}

// The call with this mark, task, priority and start condition, and no list.
pub(crate) fn start_call(mark: Mark, task: u8, priority: u8, start: StartCondition) -> Call
    ensures { result ≡ start_call mark task priority start }
{
    let plain = plain_call(mark, task, priority, 0, NO_LIST, start.first);
    let head = Head {
        kind: start.kind,
        interrupt: start.interrupt,
        endkind: start.endkind,
        period: start.period,
        endtime: start.endtime,
        ..plain.head
    };
    Call { head, ..plain }
}

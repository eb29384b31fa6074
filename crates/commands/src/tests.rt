// Lines that are read and lines that are refused, byte by byte and whole.
use crate::command::Command;
use crate::console::Console;
use crate::pending::Pending;
use crate::reading::read_line;
use crate::reply::{Outcome, Reply};
use crate::telling::tell;
use memory::reader::Reader;
use memory::slots::Slots;
use model::order::Order;
use plan::even::Even;
use rules::refusal::Refusal;
use rules::server::Server;
use std::alloc::Global;
use std::process::Abort;
use std::test::Fail;
use switch::register::Register;

fn is_refused(rt: &impl Abort, line: &[u8]) {
    assert_eq!(rt; read_line(line), Err(Refusal::Unreadable));
}

#[test]
fn orders(rt: HostRuntime) {
    assert_eq!(rt;
        read_line(b"m 8 5\n"),
        Ok(Command::Make {
            width: 8,
            capacity: 5
        })
    );
    assert_eq!(rt;
        read_line(b"e 3 51\n"),
        Ok(Command::Place(Order::Enter { tag: 3, target: 51 }))
    );
    assert_eq!(rt;
        read_line(b"r 0 4294967295\n"),
        Ok(Command::Place(Order::Reweigh {
            tag: 0,
            target: 4_294_967_295
        }))
    );
    assert_eq!(rt;
        read_line(b"w 63\n"),
        Ok(Command::Place(Order::Withdraw { tag: 63 }))
    );
    assert_eq!(rt;
        read_line(b"l 3 200\n"),
        Ok(Command::Look {
            tag: 3,
            address: 200
        })
    );
    assert_eq!(rt; read_line(b"p\n"), Ok(Command::List));
}

#[test]
fn refusals(rt: HostRuntime) {
    is_refused(&rt, b"");
    is_refused(&rt, b"\n");
    is_refused(&rt, b"p");
    is_refused(&rt, b"w 1");
    is_refused(&rt, b"w 01\n");
    is_refused(&rt, b"w 4294967296\n");
    is_refused(&rt, b"e 1  2\n");
    is_refused(&rt, b"e 1 2 \n");
    is_refused(&rt, b"e 1\n");
    is_refused(&rt, b"w \xb1\n");
}

#[test]
fn byte_by_byte(rt: HostRuntime) {
    let mut pending = Pending::new();
    assert!(rt; pending.is_empty());
    pending.push(b'w');
    for _ in 0..63 {
        pending.push(b' ');
    }
    assert!(rt; pending.line().is_some());
    pending.push(b'\n');
    assert!(rt; pending.line().is_none());
    assert_eq!(rt; pending.read(), Err(Refusal::Unreadable));
    pending.clear();
    pending.push(b'p');
    pending.push(b'\n');
    assert!(rt; !pending.is_empty());
    assert_eq!(rt; pending.read(), Ok(Command::List));
}

// What a console says in turn, and what it then has in its memory.
#[test]
fn conversation(rt: HostRuntime) -> Result<(), Fail> {
    let mut console = Console::open(Slots::new(rt.alloc())?);
    assert_eq!(rt;
        console.obey(&Even, Command::List),
        Err(Refusal::Unreadable)
    );
    let making = Command::Make {
        width: 8,
        capacity: 5,
    };
    let outcome = Outcome {
        worst: 0,
        rules: 0,
        steps: 0,
    };
    assert_eq!(rt; console.obey(&Even, making), Ok(Reply::Settled(outcome)));
    let entry = Command::Place(Order::Enter { tag: 3, target: 51 });
    let outcome = Outcome {
        worst: 0,
        rules: 5,
        steps: 5,
    };
    assert_eq!(rt; console.obey(&Even, entry), Ok(Reply::Settled(outcome)));
    let look = Command::Look {
        tag: 3,
        address: 200,
    };
    assert_eq!(rt;
        console.obey(&Even, look),
        Ok(Reply::Seen(Some(Server::Two)))
    );
    assert_eq!(rt; console.obey(&Even, entry), Err(Refusal::AlreadyRegistered));
    assert_eq!(rt; console.obey(&Even, Command::List), Ok(Reply::Listing));
    assert_eq!(rt; console.shut().count(), 5);
    Ok(())
}

fn is_told(
    rt: &impl Abort,
    heap: Global,
    reply: Result<Reply, Refusal>,
    expected: &[u8],
) -> Result<(), Fail> {
    let mut out = Vec::new(heap);
    out.extend_from_slice(b"> ")?;
    tell(heap, &Register::new(), reply, &mut out)?;
    assert_eq!(rt; out.as_slice(), expected);
    Ok(())
}

#[test]
fn texts(rt: HostRuntime) -> Result<(), Fail> {
    let heap = rt.alloc();
    let outcome = Outcome {
        worst: 3,
        rules: 5,
        steps: 4,
    };
    is_told(&rt, heap, Ok(Reply::Settled(outcome)), b"> ok 3 5 4\n")?;
    is_told(&rt, heap, Ok(Reply::Seen(Some(Server::Two))), b"> s 2\n")?;
    is_told(&rt, heap, Ok(Reply::Seen(None)), b"> s 0\n")?;
    is_told(&rt, heap, Ok(Reply::Listing), b"> back 0 0\n")?;
    is_told(&rt, heap, Err(Refusal::Unreadable), b"> no 1\n")?;
    Ok(())
}

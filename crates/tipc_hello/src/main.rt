//! Two TIPC nodes in one program: node 2 offers a service, node 1 sends a message to it by name, and what node 2 receives
//! is printed. It shows what a program that stands on tipc_node takes; docs/EXTENDING.md walks through it.
#![tactic(auto)]

mod talking;

use std::io;
use talking::talk;

fn main(rt: HostRuntime) -> io::Result<()> {
    let alloc = rt.alloc();
    match talk(alloc, b"hello") {
        Ok(Some(body)) => {
            let text = String::from_utf8_lossy(alloc, body.as_slice())?;
            println!(rt; "node 2 received {text}")
        }
        Ok(None) => println!(rt; "nothing came"),
        Err(_) => println!(rt; "memory ran out"),
    }
}

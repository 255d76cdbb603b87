//! Entity files, and files of definitions.

use mdtool::{MemoryFeed, ToolFault, entities_from, prelude_from};
use std::process::Abort;
use std::test::Fail;

#[test]
fn an_entity_file_ends_at_each_fault(rt: HostRuntime) -> Result<(), Fail> {
    let alloc = rt.alloc();
    let file = b"{\"&x;\":{\"characters\":\"y\"}}".as_slice();
    for calls in 0..=file.len() as u64 {
        let read = entities_from(alloc, &mut MemoryFeed::new(file, 1, Some(calls)));
        assert!(rt; matches!(read, Err(ToolFault::Read)), "{calls}");
    }
    match entities_from(alloc, &mut MemoryFeed::new(file, 1, None)) {
        Ok(entities) => assert_eq!(rt; entities.get("x"), Some("y")),
        Err(_) => assert!(rt; false, "refused"),
    }
    Ok(())
}

#[test]
fn a_prelude_ends_at_each_fault(rt: HostRuntime) -> Result<(), Fail> {
    let alloc = rt.alloc();
    let file = b"[a]: /b\r\n[c]: <d>\r'\xFF'\n".as_slice();
    for calls in 0..=file.len() as u64 {
        let read = prelude_from(alloc, &mut MemoryFeed::new(file, 1, Some(calls)));
        assert!(rt; matches!(read, Err(ToolFault::Read)), "{calls}");
    }
    match prelude_from(alloc, &mut MemoryFeed::new(file, 1, None)) {
        Ok(lines) => {
            let lines = format!(in alloc; "{lines:?}")?;
            assert_eq!(rt;
                lines.as_str(),
                "[\"[a]: /b\", \"[c]: <d>\", \"'\u{FFFD}'\"]"
            );
        }
        Err(_) => assert!(rt; false, "refused"),
    }
    Ok(())
}

// Which memory makes a ledger, and what stands in it afterwards.
use entry::Entry;
use ledger::Ledger;
use ledger::memory::WrongSize;
use std::alloc::Global;
use std::test::Fail;

fn opened(heap: Global, places: usize) -> Result<Result<Ledger, WrongSize>, Fail> {
    Ok(Ledger::new(vec![in heap; Entry::Mark(77); places]?))
}

#[test]
fn memory_of_another_size_is_given_back(rt: HostRuntime) -> Result<(), Fail> {
    for places in [0, 1_023, 65_537] {
        let refusal = opened(rt.alloc(), places)?
            .err()
            .ok_or("a ledger of that size")?;
        assert_eq!(rt; u8::from(&refusal), 4);
        assert_eq!(rt; refusal.memory.len(), places);
    }
    Ok(())
}

#[test]
fn memory_of_the_least_and_the_most_entries_makes_a_ledger(rt: HostRuntime) -> Result<(), Fail> {
    for places in [1_024, 65_536] {
        let ledger = opened(rt.alloc(), places)?
            .ok()
            .ok_or("no ledger of that size")?;
        assert_eq!(rt; ledger.free(), places);
        assert_eq!(rt; ledger.entries().len(), 0);
    }
    Ok(())
}

#[test]
fn what_stands_past_the_last_entry_stays(rt: HostRuntime) -> Result<(), Fail> {
    let mut ledger = opened(rt.alloc(), 1_024)?
        .ok()
        .ok_or("no ledger of that size")?;
    assert!(rt; ledger.free() > 1);
    ledger.write(Entry::Reg(0));
    ledger.write(Entry::Round(1));
    assert_eq!(rt; ledger.free(), 1_022);
    let memory = ledger.into_memory();
    assert_eq!(rt; memory.len(), 1_024);
    assert_eq!(rt;
        [memory[0], memory[1], memory[2]],
        [Entry::Reg(0), Entry::Round(1), Entry::Mark(77)]
    );
    Ok(())
}

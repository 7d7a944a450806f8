// What the totals count.
use entry::Entry;
use ledger::totals::Totals;
use reasons::cause::Cause;
use reasons::end::End;

#[test]
fn totals_count_deals_registrations_and_wakings(rt: HostRuntime) {
    let entries = [
        Entry::Reg(0),
        Entry::Round(1),
        Entry::Poll(0, true),
        Entry::Reg(1),
        Entry::Arm(0, 50),
        Entry::Wake(1, Cause::Wake),
        Entry::Tick(10),
        Entry::Jump(50),
        Entry::Ring(0, 50),
        Entry::Round(3),
        Entry::Poll(1, false),
        Entry::Skip(1),
        Entry::Poll(0, true),
        Entry::End(End::RootDone),
    ];
    let totals = Totals {
        dealt: 4,
        registered: 2,
        woken: 2,
    };
    assert_eq!(rt; Totals::of(&entries), totals);
}

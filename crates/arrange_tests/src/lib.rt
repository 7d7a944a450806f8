// What the arrangers and their draws do on examples.
#![tactic(auto)]

ghost use Rattle.std.specs.Prelude.{◌≡◌, [], ◌∷◌};

use arrange::draws::Draws;
use arrange::split_mix::SplitMix64;

// The first three draws from seed 0, proved by computing the definition, and run below.
pub fn first_draws_from_seed_zero() -> [u64; 3]
    ensures { result ≡ 16294208416658607535 ∷ 7960286522194355700 ∷ 487617019471545679 ∷ [] }
{
    let mut source = SplitMix64::seed_from_u64(0);
    [source.draw(), source.draw(), source.draw()]
}

#[cfg(test)]
mod tests {
    use super::*;
    use arrange::arranger::Arranger;
    use arrange::keep::Keep;
    use arrange::shuffle::Shuffle;
    use arrange::tape::Tape;
    use arrange::{arranger, fisher_yates};
    use std::test::Fail;

    #[test]
    fn split_mix_draws_its_published_numbers_from_seed_zero(rt: HostRuntime) {
        assert_eq!(rt;
            first_draws_from_seed_zero(),
            [
                16294208416658607535,
                7960286522194355700,
                487617019471545679,
            ]
        );
    }

    #[test]
    fn split_mix_wraps_at_the_largest_seed(rt: HostRuntime) {
        let mut source = SplitMix64::seed_from_u64(u64::MAX);
        assert_eq!(rt; source.draw(), 16490336266968443936);
    }

    #[test]
    fn a_tape_ends_in_zeros(rt: HostRuntime) -> Result<(), Fail> {
        let mut tape = Tape::new(vec![in rt.alloc(); 7, 5]?);
        assert_eq!(rt;
            [tape.draw(), tape.draw(), tape.draw(), tape.draw()],
            [7, 5, 0, 0]
        );
        Ok(())
    }

    // Places 4, 3, 2, 1 are swapped with 7 mod 5 = 2, 5 mod 4 = 1, 3 mod 3 = 0 and 9 mod 2 = 1:
    // 10 11 14 13 12, then 10 13 14 11 12, then 14 13 10 11 12, and that stays.
    #[test]
    fn five_ids_are_shuffled_by_a_tape(rt: HostRuntime) -> Result<(), Fail> {
        let mut arranger = Shuffle::new(Tape::new(vec![in rt.alloc(); 7, 5, 3, 9]?));
        let mut ids = [10u64, 11, 12, 13, 14];
        arranger.arrange(&mut ids);
        assert_eq!(rt; ids, [14, 13, 10, 11, 12]);
        Ok(())
    }

    #[test]
    fn keep_leaves_ids_as_they_were_queued(rt: HostRuntime) {
        let mut ids = [3u64, 0, 3, 1];
        Keep.arrange(&mut ids);
        assert_eq!(rt; ids, [3, 0, 3, 1]);
    }

    // A source that is not asked stands where it stood: the two draws go to the second list.
    #[test]
    fn one_id_takes_no_draw(rt: HostRuntime) -> Result<(), Fail> {
        let mut arranger = Shuffle::new(Tape::new(vec![in rt.alloc(); 1, 0]?));
        let mut one = [9u64];
        let mut three = [0u64, 1, 2];
        arranger::put_in_order(&mut arranger, &mut one);
        arranger::put_in_order(&mut arranger, &mut three);
        assert_eq!(rt; one, [9]);
        assert_eq!(rt; three, [2, 0, 1]);
        Ok(())
    }

    #[derive(PartialEq, Debug, Drop)]
    struct Queued {
        id: u64,
        class: u8,
    }

    #[test]
    fn the_same_shuffle_orders_other_records(rt: HostRuntime) -> Result<(), Fail> {
        let mut source = Tape::new(vec![in rt.alloc(); 0]?);
        let mut records = [Queued { id: 4, class: 1 }, Queued { id: 5, class: 2 }];
        fisher_yates::shuffle(&mut records, &mut source);
        assert_eq!(rt;
            records,
            [Queued { id: 5, class: 2 }, Queued { id: 4, class: 1 }]
        );
        Ok(())
    }
}

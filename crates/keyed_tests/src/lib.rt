// What lists with reserved memory and tables do, by example.
#![tactic(auto)]

#[cfg(test)]
mod tests {
    use keyed::record::Record;
    use keyed::table::Table;
    use reserved::Reserved;
    use std::test::Fail;

    // How many spoons are in the jar of a shelf.
    #[derive(Clone, Copy, PartialEq, Eq, Debug)]
    struct Jar {
        shelf: u64,
        spoons: u8,
    }

    impl Record for Jar {
        ghost key = { λ jar. jar.shelf };

        fn key(&self) -> u64 {
            self.shelf
        }
    }

    #[test]
    fn a_list_takes_what_was_reserved_for(rt: HostRuntime) -> Result<(), Fail> {
        let mut list = Reserved::<u8, 4>::new(rt.alloc())?;
        list.push(7);
        list.push(9);
        list.insert(1, 8);
        list.insert(0, 6);
        assert!(rt; list.len() == 4 && list.as_slice() == [6, 7, 8, 9].as_slice());
        assert_eq!(rt; list.remove(1), 7);
        list.put(0, 5);
        assert_eq!(rt; list.pop(), Some(9));
        assert!(rt; list.as_slice() == [5, 8].as_slice());
        list.clear();
        assert!(rt; list.len() == 0 && list.pop().is_none());
        Ok(())
    }

    #[test]
    fn a_table_finds_by_key(rt: HostRuntime) -> Result<(), Fail> {
        let mut jars = Table::<Jar, 3>::new(rt.alloc())?;
        assert_eq!(rt; (jars.len(), jars.next()), (0, 0));
        jars.push(Jar {
            shelf: 0,
            spoons: 2,
        });
        jars.push(Jar {
            shelf: 4,
            spoons: 1,
        });
        assert_eq!(rt; (jars.len(), jars.next()), (2, 5));
        jars.put(Jar {
            shelf: 4,
            spoons: 3,
        });
        jars.put(Jar {
            shelf: 3,
            spoons: 9,
        });
        assert_eq!(rt;
            jars.find(4),
            Some(Jar {
                shelf: 4,
                spoons: 3
            })
        );
        assert_eq!(rt; jars.find(3), None);
        jars.remove(0);
        jars.remove(1);
        assert!(rt;
            jars.as_slice()
                == [Jar {
                    shelf: 4,
                    spoons: 3
                }]
                .as_slice()
        );
        assert_eq!(rt; (jars.find(0), jars.next()), (None, 5));
        Ok(())
    }

    #[test]
    fn a_step_changes_one_record(rt: HostRuntime) -> Result<(), Fail> {
        let mut jars = Table::<Jar, 3>::new(rt.alloc())?;
        jars.push(Jar {
            shelf: 0,
            spoons: 1,
        });
        jars.push(Jar {
            shelf: 4,
            spoons: 1,
        });
        jars.push(Jar {
            shelf: 6,
            spoons: 1,
        });
        jars.change(6, |jar| Jar { spoons: 5, ..jar });
        jars.turn(0, |jar| Jar { spoons: 7, ..jar });
        jars.turn(4, |jar| Jar { shelf: 9, ..jar });
        jars.turn(5, |jar| Jar { spoons: 8, ..jar });
        assert!(rt;
            jars.as_slice()
                == [
                    Jar {
                        shelf: 0,
                        spoons: 7
                    },
                    Jar {
                        shelf: 4,
                        spoons: 1
                    },
                    Jar {
                        shelf: 6,
                        spoons: 5
                    }
                ]
                .as_slice()
        );
        assert_eq!(rt; (jars.len(), jars.next()), (3, 7));
        Ok(())
    }
}

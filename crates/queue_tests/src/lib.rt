// The queues as their users call them: stacked side cells, full queues, refusals.
#![tactic(auto)]

#[cfg(test)]
mod tests {
    use queues::fault::QueueFault;
    use queues::queue::{Put, Queue};
    use reading_queues::ReadingGroups;
    use records::reading::Reading;
    use records::record::Record;
    use records::telegram::Telegram;
    use shapes::{GroupCells, SortedCells};
    use sides::SideCell;
    use std::test::Fail;
    use telegram_queues::{TelegramGroups, TelegramSorted};

    // As the bench makes it: a crate for the two would be no plainer.
    fn telegram(release: u64) -> Telegram {
        Telegram {
            release,
            number: 0,
            row: 0,
            length: 64,
            handle: 0,
        }
    }

    // The release of the record that a put displaced, or 0: the tests keep their values.
    fn displaced(answer: Put<Telegram>) -> u64 {
        answer.displaced().map_or(0, |telegram| telegram.release)
    }

    // The number of a refusal, or 0.
    fn refusal(answer: Result<Telegram, QueueFault>) -> u8 {
        answer.err().map_or(0, |fault| fault.number())
    }

    #[test]
    fn side_cells_stack(rt: HostRuntime) -> Result<(), Fail> {
        let cells = vec![in rt.alloc(); Telegram::blank(); 4]?;
        let below = TelegramGroups::new(GroupCells::new(cells, 2, 2)?);
        let mut queue = SideCell::new(SideCell::new(below));
        assert_eq!(rt; queue.capacity(), 6);
        for release in [5u64, 7, 3, 6, 9, 4] {
            assert_eq!(rt; displaced(queue.put(telegram(release))?), 0);
        }
        assert!(rt; queue.is_full());
        assert_eq!(rt; displaced(queue.put(telegram(8))?), 9);
        assert_eq!(rt; queue.take()?.release, 3);
        assert_eq!(rt; queue.exchange(telegram(1))?.release, 4);
        assert_eq!(rt; queue.take()?.release, 1);
        assert_eq!(rt; queue.take()?.release, 5);
        assert_eq!(rt; queue.len(), 3);
        Ok(())
    }

    #[test]
    fn sorted_drops_its_last(rt: HostRuntime) -> Result<(), Fail> {
        let cells = vec![in rt.alloc(); Telegram::blank(); 3]?;
        let mut queue = TelegramSorted::new(SortedCells::new(cells)?);
        for release in [5u64, 7, 3] {
            assert_eq!(rt; displaced(queue.put(telegram(release))?), 0);
        }
        assert_eq!(rt; displaced(queue.put(telegram(9))?), 7);
        assert_eq!(rt; displaced(queue.put(telegram(4))?), 9);
        assert_eq!(rt; queue.take()?.release, 3);
        Ok(())
    }

    #[test]
    fn farthest_reading_first(rt: HostRuntime) -> Result<(), Fail> {
        let cells = vec![in rt.alloc(); Reading::blank(); 8]?;
        let mut queue = ReadingGroups::new(GroupCells::new(cells, 4, 2)?);
        let _ = queue.put(Reading {
            row: 1,
            position: 12,
            target: 0,
        })?;
        let _ = queue.put(Reading {
            row: 3,
            position: -5,
            target: 10,
        })?;
        assert_eq!(rt; queue.take()?.position, -5);
        assert_eq!(rt; queue.take()?.position, 12);
        Ok(())
    }

    #[test]
    fn refusals_by_their_numbers(rt: HostRuntime) -> Result<(), Fail> {
        let few = vec![in rt.alloc(); Telegram::blank(); 5]?;
        assert!(rt; GroupCells::new(few, 2, 3).is_err());
        let none: Vec<Telegram> = Vec::new(rt.alloc());
        assert!(rt; SortedCells::new(none).is_err());
        let cells = vec![in rt.alloc(); Telegram::blank(); 4]?;
        let mut queue = TelegramGroups::new(GroupCells::new(cells, 2, 2)?);
        assert_eq!(rt; refusal(queue.take()), 8);
        assert_eq!(rt; refusal(queue.exchange(telegram(1))), 8);
        assert_eq!(rt; refusal(queue.exchange(Telegram::blank())), 11);
        assert!(rt; queue.put(Telegram::blank()).is_err());
        assert_eq!(rt; queue.len(), 0);
        Ok(())
    }
}

// Drives the queues and shows through worked sequences and prints what happened after every call.
#![tactic(auto)]

mod calls;
mod nights;

use calls::{Call, Threes, made};
use nights::{last_ticks, play};
use queues::queue::Queue;
use records::record::Record;
use records::telegram::Telegram;
use shapes::{GroupCells, SortedCells};
use shows::card::RowCard;
use sides::SideCell;
use std::alloc::Global;
use telegram_queues::{TelegramGroups, TelegramSorted};

// Three groups of three telegrams, driven through the calls.
fn drive(rt: &HostRuntime, calls: &[Call]) -> anyhow::Result<()> {
    let heap = rt.alloc();
    let mut queue = nine_cells(heap)?;
    for call in calls {
        let said = made(heap, &mut queue, *call)?;
        println!(rt; "{said:<24}{}", Threes(queue.cells()))?;
    }
    Ok(())
}

// Three groups of three cells.
fn nine_cells(heap: Global) -> anyhow::Result<TelegramGroups> {
    let cells = vec![in heap; Telegram::blank(); 9]?;
    Ok(TelegramGroups::new(GroupCells::new(cells, 3, 3)?))
}

// The cells of a sorted queue.
fn sorted_cells(heap: Global) -> anyhow::Result<TelegramSorted> {
    let cells = vec![in heap; Telegram::blank(); 9]?;
    Ok(TelegramSorted::new(SortedCells::new(cells)?))
}

// One evening over a queue.
fn evening<Q: Queue<Telegram> + Drop>(
    rt: &HostRuntime,
    card: RowCard,
    queue: Q,
) -> anyhow::Result<()> {
    print!(rt; "{}", play(card, queue))?;
    Ok(())
}

// One evening over each queue, each said before its cells are asked for, and the last ticks of a row.
fn evenings(rt: &HostRuntime) -> anyhow::Result<()> {
    let heap = rt.alloc();
    let slow = RowCard::new(20, 3000)?;
    let quick = RowCard::new(1, 0)?;
    println!(rt; "an evening over a grouped queue")?;
    evening(rt, slow, nine_cells(heap)?)?;
    println!(rt; "an evening over a sorted queue")?;
    evening(rt, slow, sorted_cells(heap)?)?;
    println!(rt; "an evening over a side cell beside a grouped queue")?;
    evening(rt, slow, SideCell::new(nine_cells(heap)?))?;
    println!(rt; "64 bytes at pace 1, 64 ticks and then 63 ticks before the last")?;
    for answer in last_ticks(quick, nine_cells(heap)?).iter() {
        println!(rt; "{answer}")?;
    }
    Ok(())
}

fn main(rt: HostRuntime) -> anyhow::Result<()> {
    println!(rt; "3 groups of 3 telegrams, by their releases: puts and takes")?;
    let puts_and_takes = [
        Call::Put(5),
        Call::Put(7),
        Call::Put(6),
        Call::Put(2),
        Call::Take,
        Call::Put(1),
        Call::Put(4),
        Call::Put(0),
        Call::Put(9),
        Call::Take,
        Call::Take,
        Call::Take,
        Call::Take,
        Call::Take,
    ];
    drive(&rt, &puts_and_takes)?;
    println!(rt; "the same with exchanges")?;
    let exchanges = [
        Call::Put(5),
        Call::Put(7),
        Call::Put(6),
        Call::Put(2),
        Call::Take,
        Call::Exchange(1),
        Call::Exchange(4),
        Call::Exchange(0),
        Call::Exchange(9),
        Call::Take,
    ];
    drive(&rt, &exchanges)?;
    evenings(&rt)
}

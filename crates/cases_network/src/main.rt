//! Cases of packets, timers, exchanges and streams, of the radio, and of worlds: each line of a table with its answer.
#![tactic(auto)]

mod bench;
mod exchanges;
mod frames;
mod loads;
mod made;
mod neighbours;
mod network_tables;
mod packets;
mod parts;
mod queues;
mod radio_tables;
mod timers;
mod transmissions;
mod world_tables;
mod worlds;

use cases_files::print_table;
use std::io;

fn main(rt: HostRuntime) -> io::Result<()> {
    for table in network_tables::TABLES {
        print_table(&rt, table, network_tables::answer)?;
    }
    for table in radio_tables::TABLES {
        print_table(&rt, table, radio_tables::answer)?;
    }
    for table in world_tables::TABLES {
        print_table(&rt, table, world_tables::answer)?;
    }
    Ok(())
}

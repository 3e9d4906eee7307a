use book_engine::{Engine, OpenError};
use gate_rows::{keeper_of, memory};
use std::io;
use std::io::ErrorKind;
use std::time::CpuClock;

/// Opens the rows of a book with so many transactions of two splits, and says how many nanoseconds of the processor
/// this took, from the first row asked for to the engine. The rows are made as bytes, since so many posts would take
/// longer than the opening.
pub(crate) fn measure(rt: &HostRuntime, count: &str) -> io::Result<bool> {
    let Ok(count) = count.parse::<u64>() else {
        return Err(io::Error::from(ErrorKind::InvalidInput));
    };
    let mut keeper = keeper_of(rt.alloc(), count)?;
    let start = rt.process_cpu_time()?;
    let engine = Engine::open(rt.alloc(), &mut keeper);
    let end = rt.process_cpu_time();
    check_open(engine)?;
    println!(rt; "{}", end?.saturating_sub(start).as_nanos())?;
    Ok(true)
}

/// Checks that the rows opened as an engine.
fn check_open(engine: Result<Engine, OpenError>) -> io::Result<()> {
    match engine {
        Ok(engine) => {
            drop(engine);
            Ok(())
        }
        Err(OpenError::OutOfMemory) => Err(memory()),
        Err(_) => Err(io::Error::from(ErrorKind::InvalidData)),
    }
}

//! Says of a key store whether it is normal (canonical DER), and what its MAC covers.

use crate::ExampleError;
use x509_containers::{RawPfx, check_as, from_bytes};

pub fn check(rt: &HostRuntime, file: &[u8]) -> Result<(), ExampleError> {
    let (is_normal, _) = check_as::<RawPfx>(rt.alloc(), file)?;
    let verdict = if is_normal { "normal" } else { "loose" };
    println!(rt; "{verdict}, {} octets", file.len())?;
    let pfx: RawPfx = from_bytes(rt.alloc(), file)?;
    if let Ok(mac) = pfx.mac_input() {
        let (count, rounds) = (mac.octets.len(), mac.iterations);
        println!(rt; "its MAC covers {count} octets, by {rounds} iterations")?;
    }
    Ok(())
}

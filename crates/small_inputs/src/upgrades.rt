//! The call that raises a requirement.

use crate::checksum::Checksum;
use crate::ranges::DIALECTS;
use crate::sets::RULES;
use range_upgrades::upgrade::upgrade;
use std::alloc::Global;
use std::io;
use std::io::Write;
use tool_ranges::meaning::Rules;

/// Versions to which requirements are raised. The last one is invalid.
const NEWER: [&[u8]; 4] = [b"1.2.3-a.2", b"1.10.0", b"2.0.0-0", b"1.2"];

/// Raises a requirement to some versions, in each dialect and by each rule.
pub fn add_raised(alloc: Global, bytes: &[u8], sum: &mut Checksum) -> io::Result<()> {
    let Ok(text) = str::from_utf8(bytes) else {
        return Ok(());
    };
    for dialect in DIALECTS {
        for pre_releases in RULES {
            let meaning = Rules {
                dialect,
                pre_releases,
            };
            for version in NEWER {
                match upgrade(alloc, text, version, meaning) {
                    Ok(Some(raised)) => write!(sum, "{raised};")?,
                    Ok(None) => sum.add(1),
                    Err(error) => write!(sum, "{error};")?,
                }
            }
        }
    }
    Ok(())
}

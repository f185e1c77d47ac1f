//! What real files tell beside their stamps.

use crate::disk::{Found, Standing};
use crate::host::Host;
use measure::{Measure, Measured};
use site::SiteFault;
use std::io::Write;
use text::Bytes;

impl<'a, W: Write> Measured for Host<'a, W> {
    fn measure(&mut self, path: &str) -> Result<Option<Measure>, SiteFault> {
        let found = self.measure_file(path)?;
        match found {
            Some(standing) => Ok(Some(measure_of(standing))),
            None => Ok(None),
        }
    }

    fn read_measured(&mut self, path: &str) -> Result<Option<(Bytes, Measure)>, SiteFault> {
        let found = self.read_file(path)?;
        match found {
            Some(Found { content, standing }) => Ok(Some((content, measure_of(standing)))),
            None => Ok(None),
        }
    }

    fn now(&self) -> u64 {
        Host::now(self)
    }
}

fn measure_of(standing: Standing) -> Measure {
    let Standing {
        stamp,
        size,
        placed,
    } = standing;
    Measure {
        stamp,
        size,
        placed,
    }
}

//! A class as it is given to a charge: its rates and its series, all inside their limits.
ghost use Rattle.sheet.specs.Limits.{Inside, Worthy};

use crate::rows::Series;

#[derive(Clone, Copy)]
pub struct Class<'a> {
    pub spread_rate: Option<u32>,
    pub minimum_rate: u32,
    pub series: &'a [Series],
    ghost inside: { Inside spread_rate minimum_rate series.now },
    ghost worths: { Worthy series.now },
}

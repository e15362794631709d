// A side of a certificate.
ghost use Rattle.std.specs.Prelude.{IfOk};
ghost use Rattle.xs_searches.specs.{IsSite};
ghost use Rattle.xs_cert.specs.Places.{IsPlace};
ghost use Rattle.xs_cert.specs.Halves.{IsHalfReading};

use crate::basis::Basis;
use crate::place::{Place, Reading};
use crate::sharing::read_shares;
use xs_class::Memory;
use xs_closed::PairSet;
use xs_loose::laid_in_one_way;
use xs_searches::Site;

/// Reads a side of a certificate from a place on, by a grammar that was built, whose rules are
/// light, and its tables: the place after it where its blocks are all right, else how many lines
/// its longest right front has.
pub fn read_half(site: Site<'_>, bytes: &[u8], place: Place) -> Result<Reading, Memory>
    requires site { IsSite site }
    requires place { IsPlace bytes.now place }
    ensures { IfOk result (IsHalfReading site.entry.g.now bytes.now place) }
{
    // the nets that are made here are those that any reader of the certificate makes
    laid_in_one_way();
    let nest = site.nest()?;
    let mut related = PairSet::new(site.alloc);
    related.reset(nest.len(), nest.len())?;
    let start = read_shares(bytes, place, &nest, &mut related);
    let basis = Basis {
        bytes,
        site,
        nest: &nest,
        related: &related,
    };
    basis.blocks(start)
}

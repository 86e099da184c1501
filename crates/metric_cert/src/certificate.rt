//! A certificate as a whole.
ghost use Rattle.std.specs.Prelude.{◌≡◌, Ok, IfOk, OnOk, string_bytes, true};
ghost use Rattle.toml.specs.View.{table_view};
ghost use Rattle.metric_base.specs.Steps.{Gives};
ghost use Rattle.metric_table.specs.Fields.{only};
ghost use Rattle.metric_cert.specs.Certificates.{certificate_fields, certificate_from, certificate_of, claims_of, formatted};
ghost use Rattle.metric_cert.specs.Formats.{is_formatted};
ghost use Rattle.metric_cert.specs.Printing.{AppendsLines, AppendsLists, pairs_of};
ghost use Rattle.metric_cert.specs.Reading.{shape_faults};

use crate::bound::BoundTable;
use crate::claims::Claims;
use crate::fault::{CertFault, CertList, MISSHAPEN, shape_faults};
use crate::fields::entries;
use crate::numbers::{ShortNumber, short};
use crate::order::OrderTable;
use crate::printing::{push_if_empty, push_list, push_pair};
use crate::reason::ReasonTable;
use crate::stream::StreamTable;
use crate::tables::needed;
use metric_table::only;
use std::alloc::{AllocError, Global};
use std::marker::Model;
use toml::Table;

/// What shows that a catalogue and a config are safe. It says nothing by itself: a checker has to
/// verify it. Its claims are of a format that there is.
#[derive(Drop)]
pub struct Certificate {
    claims: Claims,
}

impl Model for Certificate {
    ghost use Rattle.std.specs.Prelude.{◌≡◌, true};
    ghost use Rattle.metric_cert.specs.Formats.{is_formatted};
    ghost use Rattle.metric_cert.specs.declared.claims.Claims.{Claims};

    ghost Value = { Claims };

    ghost view = { λ c. c.claims };

    ghost invariant = { λ c. is_formatted c.claims ≡ true };
}

impl Certificate {
    /// The certificate that makes these claims, or `Shape` where they are of no format that there is.
    pub fn new(claims: Claims) -> Result<Certificate, CertFault>
        ensures { result ≡ formatted claims }
    {
        if claims.is_formatted() {
            Ok(Certificate { claims })
        } else {
            Err(MISSHAPEN)
        }
    }

    /// The certificate that makes these claims, which are of a format that there is: see
    /// [`Claims::is_formatted`].
    pub fn made(claims: Claims) -> Certificate
        requires { is_formatted claims ≡ true }
        ensures { result ≡ claims }
    {
        Certificate { claims }
    }

    /// What it says.
    pub fn claims(&self) -> &Claims
        ensures { result.now ≡ self.now }
    {
        &self.claims
    }

    /// The certificate that a text is. What is no TOML is `NotToml`, and what is another table than that
    /// of a certificate is `Shape`, with the first table that is wrong: the lists are read after the format, in the
    /// order `reason`, `stream`, `bound`, `order`, each from its first table on.
    pub fn read(alloc: Global, text: &str) -> Result<Certificate, CertFault>
        ensures { Gives CertFault.Memory result (certificate_from text.now) }
    {
        match toml::table_from_str(alloc, text) {
            Ok(table) => certificate_of(alloc, &table),
            Err(error) if error.is_memory() => Err(CertFault::Memory),
            Err(_) => Err(CertFault::NotToml),
        }
    }

    /// The certificate as a text, which is read as this certificate. Fails only when out of memory.
    pub fn write(&self, alloc: Global) -> Result<String, AllocError>
        ensures { IfOk result (λ text. certificate_from (string_bytes text) ≡ Ok self.now) }
    {
        let mut text = String::new(alloc);
        self.claims.push_pairs(alloc, &mut text)?;
        self.claims.push_lists(alloc, &mut text)?;
        Ok(text)
    }
}

impl Claims {
    // The lines above the first header.
    fn push_pairs(&self, alloc: Global, text: &mut String) -> Result<(), AllocError>
        ensures { OnOk result (AppendsLines (pairs_of self.now)
            (string_bytes text.old) (string_bytes text.new)) }
    {
        push_if_empty(alloc, text, "bound", &self.bounds)?;
        push_pair(alloc, text, "format", short(self.format))?;
        push_if_empty(alloc, text, "order", &self.orders)?;
        push_if_empty(alloc, text, "reason", &self.reasons)?;
        push_if_empty(alloc, text, "stream", &self.streams)
    }

    // The lists, in the order of their names.
    fn push_lists(&self, alloc: Global, text: &mut String) -> Result<(), AllocError>
        ensures { OnOk result (AppendsLists self.now
            (string_bytes text.old) (string_bytes text.new)) }
    {
        push_list::<BoundTable>(alloc, text, "bound", &self.bounds)?;
        push_list::<OrderTable>(alloc, text, "order", &self.orders)?;
        push_list::<ReasonTable>(alloc, text, "reason", &self.reasons)?;
        push_list::<StreamTable>(alloc, text, "stream", &self.streams)
    }
}

#[tactic(auto, unfolding(crate::specs::Certificates::certificate_of))]
fn certificate_of(alloc: Global, table: &Table) -> Result<Certificate, CertFault>
    ensures { Gives CertFault.Memory result (certificate_of (table_view table.now)) }
{
    only_certificate(table)?;
    let claims = claims_of(alloc, table)?;
    Certificate::new(claims)
}

#[tactic(auto, unfolding(crate::specs::Certificates::claims_of))]
fn claims_of(alloc: Global, table: &Table) -> Result<Claims, CertFault>
    ensures { Gives CertFault.Memory result (claims_of (table_view table.now)) }
{
    let format = needed::<ShortNumber>(alloc, table, "format")?;
    let reasons = entries::<ReasonTable>(alloc, table, CertList::Reason)?;
    let streams = entries::<StreamTable>(alloc, table, CertList::Stream)?;
    let bounds = entries::<BoundTable>(alloc, table, CertList::Bound)?;
    let orders = entries::<OrderTable>(alloc, table, CertList::Order)?;
    Ok(Claims {
        format,
        reasons,
        streams,
        bounds,
        orders,
    })
}

fn only_certificate(table: &Table) -> Result<(), CertFault>
    ensures { result ≡ only shape_faults certificate_fields (table_view table.now) }
{
    only(
        table,
        &["format", "reason", "stream", "bound", "order"],
        &shape_faults(),
    )
}

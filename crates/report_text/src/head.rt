//! The head: the sizes of the input, the options, and the version of the form.

ghost use Rattle.std.specs.Prelude.{◌≡◌, ◌++◌, OnOk, IfOk, string_bytes};
ghost use Rattle.serde_json.specs.Data.{string};
ghost use Rattle.serde_json.specs.View.{view};
ghost use Rattle.serde_json.specs.Written.{compact_text};
ghost use Rattle.report_text.specs.HeadLine.{is_known_version, repairs_word, head_data, repairs_of, head_at};

use crate::Line;
use cq_terms::Repairs;
use report_fields::{id_at, long_at, put_id, put_long, word_at};
use serde_json::Value;
use std::alloc::AllocError;

const KNOWN_VERSIONS: [u32; 1] = [1];

/// Appends the head's text.
pub fn put_head(
    out: &mut String,
    axioms: u32,
    budget: u64,
    facts: u32,
    keep: u64,
    repairs: Repairs,
    version: u32,
) -> Result<(), AllocError>
    ensures exact { OnOk result (string_bytes out.new ≡ string_bytes out.old
        ++ compact_text (head_data axioms budget facts keep repairs version)) }
{
    out.push_str(r#"{"axioms":"#)?;
    put_id(out, axioms)?;
    out.push_str(r#","budget":"#)?;
    put_long(out, budget)?;
    out.push_str(r#","facts":"#)?;
    put_id(out, facts)?;
    out.push_str(r#","k":"head","keep":"#)?;
    put_long(out, keep)?;
    out.push_str(r#","repairs":"#)?;
    out.push_str(repairs_text(repairs))?;
    out.push_str(r#","version":"#)?;
    put_id(out, version)?;
    out.push_str("}")?;
    Ok(())
}

/// The head whose fields the value has.
pub fn head_at(value: &Value) -> Option<Line>
    ensures exact { result ≡ head_at (view value.now) }
{
    let axioms = id_at(value, "axioms")?;
    let budget = long_at(value, "budget")?;
    let facts = id_at(value, "facts")?;
    let keep = long_at(value, "keep")?;
    let repairs = repairs_of(word_at(value, "repairs")?)?;
    let version = id_at(value, "version")?;
    if !is_known_version(version) {
        return None;
    }
    Some(Line::Head {
        axioms,
        budget,
        facts,
        keep,
        repairs,
        version,
    })
}

fn is_known_version(version: u32) -> bool
    ensures exact { result ≡ is_known_version version }
{
    KNOWN_VERSIONS.contains(&version)
}

/// The word for the repairs, between quotes.
#[tactic(auto, unfolding(json::specs::Print::escape_byte))]
fn repairs_text(repairs: Repairs) -> &'static str
    ensures exact { result.now ≡ compact_text (string (repairs_word repairs)) }
{
    match repairs {
        Repairs::All => r#""all""#,
        Repairs::Pareto => r#""pareto""#,
    }
}

fn repairs_of(word: &str) -> Option<Repairs>
    ensures exact { result ≡ repairs_of word.now }
{
    match word {
        "all" => Some(Repairs::All),
        "pareto" => Some(Repairs::Pareto),
        _ => None,
    }
}

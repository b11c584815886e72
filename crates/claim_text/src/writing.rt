//! Writing reports. Each writer adds behind what is there; where memory is wanting, `Err`, and a front of the lines may stand there.
ghost use Rattle.std.specs.Prelude.{ℕ, ◌≡◌, ◌<◌, ◌≤◌, ◌^◌, ◌+◌, ◌++◌, ◌∷◌, [], ◌-◌, All, length, map, take, slice_index_or, IfOk, OnOk};
ghost use Rattle.text_lines.specs.Strict.{strict_line};
ghost use Rattle.path_algebra.specs.declared.Header.{Header};
ghost use Rattle.report_types.specs.declared.claims.Record.{Record};
ghost use Rattle.report_types.specs.Lawful.{IsReport};
ghost use Rattle.report_types.specs.Numbers.{modules_of, maps_of};
ghost use Rattle.header_text.specs.Spelling.{header_lines, text_of};
ghost use Rattle.object_lines.specs.Spelling.{row_line, gen_line, ideal_line, power_line, residue_line, phi_line, left_line, middle_line};
ghost use Rattle.claim_lines.specs.declared.heads.Head.TheVariants as head;
ghost use Rattle.claim_lines.specs.Spelling.{title_line, claim_line, word_line, rule_line};
ghost use Rattle.claim_text.specs.Spelling.{step_lines, block_lines, term_block, term_lines, module_block, map_block, module_lines, map_lines, at_vertices, head_of, claim_block, record_text, records_lines, report_text, end_text, text_behind};
ghost use Rattle.claim_text.specs.Writable.{IsShortModule, IsShortMap, IsShortClaim, IsWritable, HasShortHead, HasLongHead, IsSequenceClaim, HasCertificate};

use claim_conditions::Residue;
use claim_lines::{Head, push_claim_line, push_count, push_end, push_rule, push_step, push_word};
use fp_linear::Matrix;
use header_text::push_header;
use module_types::{Map, Module, TermRows};
use object_lines::{
    push_at_arrows, push_at_vertices, push_gen_line, push_ideal_line, push_left_line,
    push_map_line, push_middle_line, push_module_line, push_phi_line, push_power_line,
    push_residue_line, push_row_lines, push_term_line,
};
use path_algebra::{Header, Rule, Step};
use quiver_paths::{Path, Quiver};
use report_types::{Claim, PartClaim, Record, Report};
use seq::Seq;
use std::alloc::{AllocError, Global};

fn push_gens(out: &mut Vec<u8>, images: &[Seq<u8>]) -> Result<(), AllocError>
    ensures { OnOk result (out.new.items ≡ out.old.items ++ text_of (map gen_line images.now)) }
{
    for image in images {
        push_gen_line(out, image.as_slice())?;
    }
    Ok(())
}

/// Adds term k of a resolution, with the rows of its generators.
fn push_term(out: &mut Vec<u8>, quiver: &Quiver, k: u32, term: &TermRows) -> Result<(), AllocError>
    ensures { OnOk result (out.new.items ≡ out.old.items ++ text_of (term_block quiver.now k term.now)) }
{
    push_term_line(out, quiver, k, term.vertices.as_slice())?;
    push_gens(out, term.images.as_slice())?;
    Ok(())
}

/// Adds the terms of a resolution.
fn push_terms(out: &mut Vec<u8>, quiver: &Quiver, terms: &[TermRows]) -> Result<(), AllocError>
    requires { length terms.now < 2 ^ 32 }
    ensures { OnOk result (out.new.items ≡ out.old.items ++ text_of (term_lines quiver.now 0 terms.now)) }
{
    for (k, term) in terms.iter().enumerate() {
        push_term(out, quiver, k as u32, term)?;
    }
    Ok(())
}

/// Adds a module behind so many, with its matrices.
fn push_module(
    out: &mut Vec<u8>,
    header: &Header,
    before: u32,
    m: &Module,
) -> Result<(), AllocError>
    requires room { before + 1 < 2 ^ 32 }
    requires short { IsShortModule m.now }
    ensures { OnOk result (out.new.items ≡ out.old.items ++ text_of (module_block header.now before m.now)) }
{
    push_module_line(out, before + 1, m.side, m.dims.as_slice())?;
    push_at_arrows(out, &header.quiver, m.matrices.as_slice())?;
    Ok(())
}

/// Adds a map behind so many, with its matrices.
fn push_map(out: &mut Vec<u8>, header: &Header, before: u32, f: &Map) -> Result<(), AllocError>
    requires room { before + 1 < 2 ^ 32 }
    requires short { IsShortMap f.now }
    ensures { OnOk result (out.new.items ≡ out.old.items ++ text_of (map_block header.now before f.now)) }
{
    push_map_line(out, before + 1, f.source, f.target)?;
    push_at_vertices(out, &header.quiver, f.matrices.as_slice())?;
    Ok(())
}

/// Adds modules behind so many.
fn push_modules(
    out: &mut Vec<u8>,
    header: &Header,
    before: u32,
    modules: &[Module],
) -> Result<(), AllocError>
    requires room { before + length modules.now < 2 ^ 32 }
    requires short { All IsShortModule modules.now }
    ensures { OnOk result (out.new.items ≡ out.old.items ++ text_of (module_lines header.now before modules.now)) }
{
    for (i, m) in modules.iter().enumerate() {
        push_module(out, header, before + i as u32, m)?;
    }
    Ok(())
}

/// Adds maps behind so many.
fn push_maps(
    out: &mut Vec<u8>,
    header: &Header,
    before: u32,
    maps: &[Map],
) -> Result<(), AllocError>
    requires room { before + length maps.now < 2 ^ 32 }
    requires short { All IsShortMap maps.now }
    ensures { OnOk result (out.new.items ≡ out.old.items ++ text_of (map_lines header.now before maps.now)) }
{
    for (i, f) in maps.iter().enumerate() {
        push_map(out, header, before + i as u32, f)?;
    }
    Ok(())
}

fn push_words(out: &mut Vec<u8>, quiver: &Quiver, words: &[Path]) -> Result<(), AllocError>
    ensures { OnOk result (out.new.items ≡ out.old.items ++ text_of (map (word_line quiver.now) words.now)) }
{
    for word in words {
        push_word(out, quiver, word)?;
    }
    Ok(())
}

fn push_steps(out: &mut Vec<u8>, quiver: &Quiver, steps: &[Step]) -> Result<(), AllocError>
    ensures { OnOk result (out.new.items ≡ out.old.items ++ text_of (step_lines quiver.now 1 steps.now)) }
{
    for (i, step) in steps.iter().enumerate() {
        push_step(out, quiver, i as u64 + 1, *step)?;
    }
    Ok(())
}

fn push_rules(out: &mut Vec<u8>, quiver: &Quiver, rules: &[Rule]) -> Result<(), AllocError>
    ensures { OnOk result (out.new.items ≡ out.old.items ++ text_of (map (rule_line quiver.now) rules.now)) }
{
    for rule in rules {
        push_rule(out, quiver, rule)?;
    }
    Ok(())
}

/// Adds the words, steps and rules of a basis.
fn push_block(
    out: &mut Vec<u8>,
    quiver: &Quiver,
    words: &[Path],
    steps: &[Step],
    rules: &[Rule],
) -> Result<(), AllocError>
    ensures { OnOk result (out.new.items ≡ out.old.items ++ text_of (block_lines quiver.now words.now steps.now rules.now)) }
{
    push_count(out, b"words", words.len() as u64)?;
    push_words(out, quiver, words)?;
    push_count(out, b"steps", steps.len() as u64)?;
    push_steps(out, quiver, steps)?;
    push_count(out, b"rules", rules.len() as u64)?;
    push_rules(out, quiver, rules)?;
    Ok(())
}

fn push_local(
    out: &mut Vec<u8>,
    ideal: &Matrix,
    power: u32,
    residue: Residue,
) -> Result<(), AllocError>
    ensures { OnOk result (out.new.items ≡ out.old.items ++ text_of (ideal_line ideal.now.row_count ∷ (map row_line ideal.now.rows ++ (power_line power ∷ residue_line residue ∷ [])))) }
{
    push_ideal_line(out, ideal.rows())?;
    push_row_lines(out, ideal)?;
    push_power_line(out, power)?;
    push_residue_line(out, residue)?;
    Ok(())
}

fn push_sequence(
    out: &mut Vec<u8>,
    header: &Header,
    phi: &[u8],
    left: &[Matrix],
    middle: &[Matrix],
) -> Result<(), AllocError>
    requires { (length left.now ≤ 256) × (length middle.now ≤ 256) }
    ensures { OnOk result (out.new.items ≡ out.old.items ++ text_of (phi_line phi.now ∷ left_line ∷ (at_vertices header.now left.now ++ (middle_line ∷ at_vertices header.now middle.now)))) }
{
    push_phi_line(out, phi)?;
    push_left_line(out)?;
    push_at_vertices(out, &header.quiver, left)?;
    push_middle_line(out)?;
    push_at_vertices(out, &header.quiver, middle)?;
    Ok(())
}

/// Adds the lines behind the first of the claim of a local module or of an almost split sequence.
fn push_certificate(out: &mut Vec<u8>, header: &Header, claim: &Claim) -> Result<(), AllocError>
    requires short { IsShortClaim claim.now }
    requires kind { HasCertificate claim.now }
    ensures { OnOk result (out.new.items ≡ out.old.items ++ text_of (claim_block header.now claim.now)) }
{
    match claim {
        Claim::Local {
            ideal,
            power,
            residue,
            ..
        } => push_local(out, ideal, *power, *residue),
        Claim::AlmostSplit {
            phi,
            left_rows,
            middle_rows,
            ..
        } => push_sequence(
            out,
            header,
            phi.as_slice(),
            left_rows.as_slice(),
            middle_rows.as_slice(),
        ),
        _ => Ok(()),
    }
}

/// Adds the lines of a claim behind its first.
fn push_claim(out: &mut Vec<u8>, header: &Header, claim: &Claim) -> Result<(), AllocError>
    requires { IsShortClaim claim.now }
    ensures { OnOk result (out.new.items ≡ out.old.items ++ text_of (claim_block header.now claim.now)) }
{
    match claim {
        Claim::Basis {
            words,
            steps,
            rules,
        } => push_block(
            out,
            &header.quiver,
            words.as_slice(),
            steps.as_slice(),
            rules.as_slice(),
        ),
        Claim::Hom { rows, .. } => push_row_lines(out, rows),
        Claim::Resolution { terms, .. } => push_terms(out, &header.quiver, terms.as_slice()),
        Claim::Ext { rows, .. } => push_row_lines(out, rows),
        Claim::Local { .. } => push_certificate(out, header, claim),
        Claim::Translate { rows, .. } => push_at_vertices(out, &header.quiver, rows.as_slice()),
        Claim::AlmostSplit { .. } => push_certificate(out, header, claim),
        Claim::Module { .. } => Ok(()),
        Claim::Map { .. } => Ok(()),
        Claim::Kernel { .. } => Ok(()),
        Claim::Cokernel { .. } => Ok(()),
        Claim::Radical { .. } => Ok(()),
        Claim::Decomposition { .. } => Ok(()),
    }
}

/// What the first line of a claim says of a kernel, a cokernel or a radical.
fn short_head(claim: &Claim) -> Head
    requires { HasShortHead claim.now }
    ensures { result ≡ head_of claim.now }
{
    match claim {
        Claim::Kernel {
            kernel,
            f,
            inclusion,
        } => Head::Kernel {
            kernel: *kernel,
            f: *f,
            inclusion: *inclusion,
        },
        Claim::Cokernel {
            cokernel,
            f,
            projection,
        } => Head::Cokernel {
            cokernel: *cokernel,
            f: *f,
            projection: *projection,
        },
        Claim::Radical {
            radical,
            a,
            inclusion,
        } => Head::Radical {
            radical: *radical,
            a: *a,
            inclusion: *inclusion,
        },
        _ => Head::Basis,
    }
}

/// What the first line of a claim says of extensions or a translate.
fn long_head(claim: &Claim) -> Head
    requires { HasLongHead claim.now }
    ensures { result ≡ head_of claim.now }
{
    match claim {
        Claim::Ext {
            n,
            a,
            b,
            rows,
            resolution,
        } => Head::Ext {
            n: *n,
            a: *a,
            b: *b,
            count: rows.rows(),
            resolution: *resolution,
        },
        Claim::Translate {
            which,
            module,
            a,
            resolution,
            ..
        } => Head::Translate {
            which: *which,
            module: *module,
            a: *a,
            resolution: *resolution,
        },
        _ => Head::Basis,
    }
}

/// What the first line of a claim says of an almost split sequence.
fn sequence_head(claim: &Claim) -> Head
    requires { IsSequenceClaim claim.now }
    ensures { result ≡ head_of claim.now }
{
    match claim {
        Claim::AlmostSplit {
            left,
            middle,
            right,
            f,
            g,
            resolution,
            local,
            ..
        } => Head::AlmostSplit {
            left: *left,
            middle: *middle,
            right: *right,
            f: *f,
            g: *g,
            resolution: *resolution,
            local: *local,
        },
        _ => Head::Basis,
    }
}

/// A copy of parts.
fn copied(alloc: Global, parts: &[PartClaim]) -> Result<Seq<PartClaim>, AllocError>
    ensures { IfOk result (λ copy. copy ≡ parts.now) }
{
    Ok(Seq::from_vec(Vec::from_slice(alloc, parts)?))
}

/// What the first line of a claim says.
fn first_head(alloc: Global, claim: &Claim) -> Result<Head, AllocError>
    ensures { IfOk result (λ x. x ≡ head_of claim.now) }
{
    match claim {
        Claim::Basis { .. } => Ok(Head::Basis),
        Claim::Module { module } => Ok(Head::Module { module: *module }),
        Claim::Map { map } => Ok(Head::Map { map: *map }),
        Claim::Hom { a, b, rows } => Ok(Head::Hom {
            a: *a,
            b: *b,
            count: rows.rows(),
        }),
        Claim::Resolution { a, n, .. } => Ok(Head::Resolution { a: *a, n: *n }),
        Claim::Local { module, hom, .. } => Ok(Head::Local {
            module: *module,
            hom: *hom,
        }),
        Claim::Decomposition {
            a,
            sum,
            to,
            back,
            parts,
        } => Ok(Head::Decomposition {
            a: *a,
            sum: *sum,
            to: *to,
            back: *back,
            parts: copied(alloc, parts.as_slice())?,
        }),
        Claim::Kernel { .. } => Ok(short_head(claim)),
        Claim::Cokernel { .. } => Ok(short_head(claim)),
        Claim::Radical { .. } => Ok(short_head(claim)),
        Claim::Ext { .. } => Ok(long_head(claim)),
        Claim::Translate { .. } => Ok(long_head(claim)),
        Claim::AlmostSplit { .. } => Ok(sequence_head(claim)),
    }
}

/// Adds the first line of claim k.
fn push_first_line(out: &mut Vec<u8>, k: u32, line: u32, claim: &Claim) -> Result<(), AllocError>
    ensures { OnOk result (out.new.items ≡ out.old.items ++ strict_line (claim_line k line (head_of claim.now))) }
{
    let first = first_head(*out.allocator(), claim)?;
    push_claim_line(out, k, line, &first)?;
    Ok(())
}

/// Adds the lines of a record behind so many modules and maps, with claim k. Modules, maps and claims are numbered from 1 through the report.
pub fn push_record(
    out: &mut Vec<u8>,
    header: &Header,
    modules: u32,
    maps: u32,
    k: u32,
    item: &Record,
) -> Result<(), AllocError>
    requires number { 1 ≤ k }
    requires few_modules { modules + length item.now.modules < 2 ^ 32 }
    requires few_maps { maps + length item.now.maps < 2 ^ 32 }
    requires writable { IsWritable item.now }
    ensures { OnOk result (out.new.items ≡ out.old.items ++ record_text header.now modules maps (k - 1) item.now) }
{
    push_modules(out, header, modules, item.modules.as_slice())?;
    push_maps(out, header, maps, item.maps.as_slice())?;
    push_first_line(out, k, item.line, &item.claim)?;
    push_claim(out, header, &item.claim)?;
    Ok(())
}

fn push_records(out: &mut Vec<u8>, header: &Header, items: &[Record]) -> Result<(), AllocError>
    requires few { length items.now < 2 ^ 32 }
    requires few_modules { length (modules_of items.now) < 2 ^ 32 }
    requires few_maps { length (maps_of items.now) < 2 ^ 32 }
    requires writable { All IsWritable items.now }
    ensures { OnOk result (out.new.items ≡ out.old.items ++ text_of (records_lines header.now 0 0 0 items.now)) }
{
    let mut modules: u32 = 0;
    let mut maps: u32 = 0;
    for (i, item) in items.iter().enumerate() {
        push_record(out, header, modules, maps, i as u32 + 1, item)?;
        modules += item.modules.len() as u32;
        maps += item.maps.len() as u32;
    }
    Ok(())
}

/// How many modules there are in records.
fn count_modules(items: &[Record]) -> u32
    requires { length (modules_of items.now) < 2 ^ 32 }
    ensures { result ≡ length (modules_of items.now) }
{
    let mut count: u32 = 0;
    for item in items {
        count += item.modules.len() as u32;
    }
    count
}

/// How many maps there are in records.
fn count_maps(items: &[Record]) -> u32
    requires { length (maps_of items.now) < 2 ^ 32 }
    ensures { result ≡ length (maps_of items.now) }
{
    let mut count: u32 = 0;
    for item in items {
        count += item.maps.len() as u32;
    }
    count
}

/// Adds the title and the header.
fn push_front(out: &mut Vec<u8>, header: &Header) -> Result<(), AllocError>
    ensures { OnOk result (out.new.items ≡ out.old.items ++ text_of (title_line ∷ header_lines header.now)) }
{
    out.extend_from_slice(b"report 1\n")?;
    push_header(out, header)?;
    Ok(())
}

/// The text of a report before its first record: the title and the header.
pub fn write_header(alloc: Global, header: &Header) -> Result<Vec<u8>, AllocError>
    ensures { IfOk result (λ out. out.items ≡ text_of (title_line ∷ header_lines header.now)) }
{
    let mut out = Vec::new(alloc);
    push_front(&mut out, header)?;
    Ok(out)
}

/// The text of the record with the number k, from 1 on.
pub fn write_record(alloc: Global, report: &Report, k: u32) -> Result<Vec<u8>, AllocError>
    requires lawful { IsReport report.now }
    requires from { 1 ≤ k }
    requires to { k ≤ length report.now.records }
    ensures { IfOk result (λ out. (r : Record) → out.items ≡ text_behind report.now.header (take (k - 1) report.now.records) (slice_index_or report.now.records (k - 1) r)) }
{
    let mut out = Vec::new(alloc);
    let items = report.records.as_slice();
    let before = k as usize - 1;
    let modules = count_modules(&items[..before]);
    let maps = count_maps(&items[..before]);
    push_record(&mut out, &report.header, modules, maps, k, &items[before])?;
    Ok(out)
}

/// The text of a report behind its last record: its last line.
pub fn write_end(alloc: Global, report: &Report) -> Result<Vec<u8>, AllocError>
    ensures { IfOk result (λ out. out.items ≡ end_text report.now) }
{
    let mut out = Vec::new(alloc);
    push_end(
        &mut out,
        &report.header,
        report.records.len() as u64,
        &report.end,
    )?;
    Ok(out)
}

/// The whole text of a report.
pub fn write(alloc: Global, report: &Report) -> Result<Vec<u8>, AllocError>
    requires { IsReport report.now }
    ensures { IfOk result (λ out. out.items ≡ report_text report.now) }
{
    let mut out = Vec::new(alloc);
    push_front(&mut out, &report.header)?;
    push_records(&mut out, &report.header, report.records.as_slice())?;
    push_end(
        &mut out,
        &report.header,
        report.records.len() as u64,
        &report.end,
    )?;
    Ok(out)
}

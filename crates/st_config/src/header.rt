ghost use Rattle.std.specs.Prelude.{◌≡◌, ◌≤◌, ◌<◌, ◌+◌, ◌^◌, IsTrue, map, take, IfOk, IfSome};
ghost use Rattle.std.specs.Str.Lines.{lines};
ghost use Rattle.st_config.specs.Header.{Takes, chosen, counts_of, deployment_of_lines, header_of, hss_of, keyed_of, keys_of, rest_of, seed_in, seed_of, service_of};
ghost use Rattle.st_config.specs.Taken.{AreTaken, IsTaken};
ghost use Rattle.st_config.specs.declared.header.ConfigError.TheVariants as errors;
ghost use Rattle.st_words.specs.declared.deployment.ServiceKind.TheVariants as services;
ghost use Rattle.st_hss_seal.specs.Keys.{is_choice};

use crate::parts::{number_of, text_of};
use st_fields::Seq;
use st_hss_seal::is_choice;
use st_texts::read_hex;
use st_words::{Deployment, SealKind, ServiceKind};
use std::alloc::{AllocError, Global};

/// How many lines a header has at most.
const LINES: usize = 10;

/// The greatest id of a deployment.
const MOST_ID: u64 = 9_223_372_036_854_775_807;

/// How many clients a deployment has at most.
const MOST_CLIENTS: u64 = 64;

/// The port of a deployment's first party where the header gives none.
const PORT: u16 = 47_000;

/// Why a header was not read.
#[derive(Clone, Copy, Debug, PartialEq, Eq)]
pub enum ConfigError {
    /// The text is no header that is taken today.
    NotTaken,
    /// Memory was refused.
    OutOfMemory,
}

impl From<AllocError> for ConfigError {
    ghost from_gives = { λ _ e. e ≡ errors.OutOfMemory };

    fn from(_: AllocError) -> ConfigError {
        ConfigError::OutOfMemory
    }
}

/// The numbers of a header.
#[derive(Clone, Copy)]
struct Counts {
    id: u64,
    sites: u8,
    f: u8,
    clients: u8,
}

/// The deployment of a header: the text before the line that ends it. NotTaken for every text that is not
/// the header's lines, in their order, each within today's limits.
#[tactic(auto, unfolding(crate::specs::Header::header_of))]
pub fn read_header(alloc: Global, text: &str) -> Result<Deployment, ConfigError>
    ensures read { Takes result (header_of text.now) }
    ensures taken { IfOk result IsTaken }
{
    match read_deployment(alloc, text)? {
        Some(deployment) => Ok(deployment),
        None => Err(ConfigError::NotTaken),
    }
}

/// The deployment that a text's lines say; None where they say none.
fn read_deployment(alloc: Global, text: &str) -> Result<Option<Deployment>, AllocError>
    ensures value { IfOk result (λ d. d ≡ deployment_of_lines (lines text.now)) }
    ensures taken { IfOk result (λ d. IfSome d IsTaken) }
{
    let lines = first_lines(alloc, text)?;
    match lines.as_slice() {
        [id, sites, f, clients, service, seals, seed] => {
            let counts = read_counts(id, sites, f, clients);
            let seals = read_keyed(seals);
            Ok(read_rest(alloc, counts, service, seals, seed)?)
        }
        [
            id,
            sites,
            f,
            clients,
            service,
            seals,
            height,
            width,
            levels,
            seed,
        ] => {
            let counts = read_counts(id, sites, f, clients);
            let seals = read_hss(seals, height, width, levels);
            Ok(read_rest(alloc, counts, service, seals, seed)?)
        }
        _ => Ok(None),
    }
}

/// The first lines of a text, one more than a header has at most: that many show that there are too many.
fn first_lines(alloc: Global, text: &str) -> Result<Vec<&str>, AllocError>
    ensures { IfOk result (λ v. map (λ line. line.now) v.items ≡ take (LINES + 1) (lines text.now)) }
{
    text.lines().take(LINES + 1).collect(alloc)
}

/// The numbers that these lines say.
#[tactic(auto, unfolding(crate::specs::Header::counts_of))]
fn read_counts(id: &str, sites: &str, f: &str, clients: &str) -> Option<Counts>
    ensures value { result ≡ counts_of id.now sites.now f.now clients.now }
    ensures range { IfSome result AreTaken }
{
    let id = number_of(id, "id", 0, MOST_ID)?;
    let sites = number_of(sites, "sites", 1, 1)? as u8;
    let f = number_of(f, "f", 0, 0)? as u8;
    let clients = number_of(clients, "clients", 0, MOST_CLIENTS)? as u8;
    Some(Counts {
        id,
        sites,
        f,
        clients,
    })
}

/// The deployment of these numbers and seals, and of the lines of its service and seed.
#[tactic(auto, unfolding(crate::specs::Header::rest_of))]
fn read_rest(
    alloc: Global,
    counts: Option<Counts>,
    service: &str,
    seals: Option<SealKind>,
    seed: &str,
) -> Result<Option<Deployment>, AllocError>
    requires counts { IfSome counts AreTaken }
    requires seals { IfSome seals (λ kind. IsTrue (is_choice kind)) }
    ensures value { IfOk result (λ d. d ≡ rest_of counts service.now seals seed.now) }
    ensures taken { IfOk result (λ d. IfSome d IsTaken) }
{
    let (Some(counts), Some(service), Some(seals)) = (counts, read_service(service), seals) else {
        return Ok(None);
    };
    let Some(seed) = read_seed(alloc, seed)? else {
        return Ok(None);
    };
    Ok(Some(Deployment {
        id: counts.id,
        sites: counts.sites,
        f: counts.f,
        clients: counts.clients,
        service,
        seals,
        seed,
        faulty: Seq::new(alloc),
        port: PORT,
    }))
}

/// The service that a line names.
#[tactic(auto, unfolding(crate::specs::Header::service_of))]
fn read_service(line: &str) -> Option<ServiceKind>
    ensures value { result ≡ service_of line.now }
    ensures taken { IfSome result (λ service. service ≡ services.List) }
{
    let name = text_of(line, "service")?;
    if name == "list" {
        Some(ServiceKind::List)
    } else {
        None
    }
}

/// Keyed seals, where this line names them.
#[tactic(auto, unfolding(crate::specs::Header::keyed_of))]
fn read_keyed(line: &str) -> Option<SealKind>
    ensures value { result ≡ keyed_of line.now }
    ensures taken { IfSome result (λ kind. IsTrue (is_choice kind)) }
{
    let name = text_of(line, "seals")?;
    if name == "keyed" {
        Some(SealKind::Keyed)
    } else {
        None
    }
}

/// HSS seals, where these lines name them and say their keys.
#[tactic(auto, unfolding(crate::specs::Header::hss_of))]
fn read_hss(line: &str, height: &str, width: &str, levels: &str) -> Option<SealKind>
    ensures value { result ≡ hss_of line.now height.now width.now levels.now }
    ensures taken { IfSome result (λ kind. IsTrue (is_choice kind)) }
{
    let name = text_of(line, "seals")?;
    if name == "hss" {
        read_keys(height, width, levels)
    } else {
        None
    }
}

/// The HSS seals of these lines.
#[tactic(auto, unfolding(crate::specs::Header::keys_of))]
fn read_keys(height: &str, width: &str, levels: &str) -> Option<SealKind>
    ensures value { result ≡ keys_of height.now width.now levels.now }
    ensures taken { IfSome result (λ kind. IsTrue (is_choice kind)) }
{
    let height = number_of(height, "height", 0, 255)? as u8;
    let width = number_of(width, "width", 0, 255)? as u8;
    let levels = number_of(levels, "levels", 0, 255)? as u8;
    chosen(SealKind::Hss {
        height,
        width,
        levels,
    })
}

/// Seals that are made.
fn chosen(kind: SealKind) -> Option<SealKind>
    ensures value { result ≡ chosen kind }
    ensures taken { IfSome result (λ kind. IsTrue (is_choice kind)) }
{
    if is_choice(kind) { Some(kind) } else { None }
}

/// The seed that a line gives.
#[tactic(auto, unfolding(crate::specs::Header::seed_of))]
fn read_seed(alloc: Global, line: &str) -> Result<Option<[u8; 32]>, AllocError>
    ensures value { IfOk result (λ seed. seed ≡ seed_of line.now) }
{
    let Some(digits) = text_of(line, "seed") else {
        return Ok(None);
    };
    seed_in(alloc, digits)
}

/// The 32 bytes that 64 hexadecimal digits write.
#[tactic(auto, unfolding(crate::specs::Header::seed_in))]
fn seed_in(alloc: Global, digits: &str) -> Result<Option<[u8; 32]>, AllocError>
    ensures { IfOk result (λ seed. seed ≡ seed_in digits.now) }
{
    let Some(bytes) = read_hex(alloc, digits)? else {
        return Ok(None);
    };
    if bytes.len() != 32 {
        return Ok(None);
    }
    let mut seed = [0; 32];
    seed.copy_from_slice(bytes.as_slice());
    Ok(Some(seed))
}

ghost use Rattle.std.specs.Prelude.{◌≡◌, ◌<◌, ◌^◌, IfOk, string_bytes};
ghost use Rattle.bp_faults.specs.declared.limits.TheConstants.{MOST_SYNTHETIC_MODULES};
ghost use Rattle.synthetic_tree.specs.Modules.{first_in_file, near_dependency, far_dependency, index_in_file};
ghost use Rattle.synthetic_tree.specs.Modules.{dependencies, names_text, type_text, end_text, module_text};

use std::alloc::{AllocError, Global};

fn first_in_file(i: u32) -> u32
    ensures { result ≡ first_in_file i }
{
    64 * (i / 64)
}

// `i` isn't the first module of its file.
fn near_dependency(seed: u32, i: u32) -> u32
    requires small { i < MOST_SYNTHETIC_MODULES }
    requires later { 0 < index_in_file i }
    ensures { result ≡ near_dependency seed i }
{
    first_in_file(i) + ((u64::from(seed) + 7 * u64::from(i)) % u64::from(i % 64)) as u32
}

fn far_dependency(seed: u32, i: u32) -> u32
    requires small { i < MOST_SYNTHETIC_MODULES }
    requires later { 0 < index_in_file i }
    ensures { result ≡ far_dependency seed i }
{
    first_in_file(i) + ((3 * u64::from(seed) + 11 * u64::from(i)) % u64::from(i % 64)) as u32
}

fn dependencies_text(alloc: Global, seed: u32, i: u32) -> Result<String, AllocError>
    requires { i < MOST_SYNTHETIC_MODULES }
    ensures { IfOk result (λ text. string_bytes text ≡ names_text (dependencies seed i)) }
{
    let index = i % 64;
    if index == 0 {
        Ok(String::new(alloc))
    } else if index == 1 {
        let near = near_dependency(seed, i);
        format!(in alloc; "\"m{near}\"")
    } else {
        let near = near_dependency(seed, i);
        let far = far_dependency(seed, i);
        format!(in alloc; "\"m{near}\", \"m{far}\"")
    }
}

fn type_text(i: u32) -> &'static str
    ensures { result.now ≡ type_text i }
{
    if i % 64 == 63 {
        "cc_binary"
    } else {
        "cc_library_static"
    }
}

fn end_text(seed: u32, i: u32) -> &'static str
    requires { i < MOST_SYNTHETIC_MODULES }
    ensures { result.now ≡ end_text seed i }
{
    if i % 64 == 63 && (u64::from(seed) + u64::from(i / 64)) % 4 == 0 {
        "    sanitize: { address: true },\n}\n"
    } else {
        "}\n"
    }
}

/// The text of a module, by its number.
pub fn module_text(alloc: Global, seed: u32, i: u32) -> Result<String, AllocError>
    requires { i < MOST_SYNTHETIC_MODULES }
    ensures { IfOk result (λ text. string_bytes text ≡ module_text seed i) }
{
    let kind = type_text(i);
    let dependencies = dependencies_text(alloc, seed, i)?;
    let end = end_text(seed, i);
    format!(in alloc;
        "{kind} {{\n    name: \"m{i}\",\n    srcs: [\"m{i}.c\"],\n    static_libs: [{dependencies}],\n{end}"
    )
}

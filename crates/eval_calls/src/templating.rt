//! The functions `epp` and `inline_epp`.
ghost use Rattle.std.specs.Prelude.{◌≡◌, ◌++◌, IfOk, Some, codes, option_map};
ghost use Rattle.eval_calls.specs.Templating as spec;
ghost use Rattle.eval_world.specs.Nests.{Nests};
ghost use Rattle.eval_world.specs.Outcomes.{Gives, same};
ghost use Rattle.eval_calls.specs.Renderings.{rendering_seen};
ghost use Rattle.pp_values.specs.Views.{view, views};

use crate::asked::Asked;
use crate::names::wrong;
use crate::rendering::Rendering;
use crate::templates::template;
use eval_world::{Evaluated, Forms, Goal, Here, INLINE_FILE, Meaning, World};
use pp_values::{Memory, Stop, Text, Value, Values};
use std::alloc::Global;

/// How many bytes a template's path has beside those of its module and its name there.
const BESIDE: usize = 19;

/// `epp('m/p', { 'x' => 1 })`: the template of a file.
#[tactic(auto, unfolding(crate::specs::Templating::epp_rule))]
pub fn epp<F: Fn(&mut World<'_>, Goal<'_>, Here, u32) -> Result<Evaluated, Stop>, M: Meaning>(
    forms: &Forms<F, M>,
    world: &mut World<'_>,
    function: &Text,
    arguments: &Values,
    line: u32,
    here: Here,
) -> Result<Evaluated, Stop>
    requires { Nests (M.within forms.now.left) forms.now.left (F.pre forms.now.inner) (F.post forms.now.inner) }
    ensures { Gives same (spec.epp_rule (M.within forms.now.left) function.now arguments.now line here world.old) result
        world.new }
{
    match asked_of(arguments.as_slice()) {
        Some(asked) => epp_named(forms, world, function, asked, line, here),
        None => Err(Stop::Fault(wrong(world, function, line, here)?)),
    }
}

fn epp_named<F: Fn(&mut World<'_>, Goal<'_>, Here, u32) -> Result<Evaluated, Stop>, M: Meaning>(
    forms: &Forms<F, M>,
    world: &mut World<'_>,
    function: &Text,
    asked: Asked<'_>,
    line: u32,
    here: Here,
) -> Result<Evaluated, Stop>
    requires { Nests (M.within forms.now.left) forms.now.left (F.pre forms.now.inner) (F.post forms.now.inner) }
    ensures { Gives same (spec.epp_by (M.within forms.now.left) (Some (spec.asked_seen asked.entry)) function.now line here
        world.old) result world.new }
{
    match template_path(world.heap.alloc(), asked.text)? {
        Some(path) => epp_at(forms, world, function, &path, asked.given, line, here),
        None => Err(Stop::Fault(wrong(world, function, line, here)?)),
    }
}

/// The template of the file at this path.
fn epp_at<F: Fn(&mut World<'_>, Goal<'_>, Here, u32) -> Result<Evaluated, Stop>, M: Meaning>(
    forms: &Forms<F, M>,
    world: &mut World<'_>,
    function: &Text,
    path: &Text,
    given: Option<&Value>,
    line: u32,
    here: Here,
) -> Result<Evaluated, Stop>
    requires { Nests (M.within forms.now.left) forms.now.left (F.pre forms.now.inner) (F.post forms.now.inner) }
    ensures { Gives same (spec.named_by (M.within forms.now.left) (Some path.now)
        (option_map (λ v. view v.now) given.entry) function.now line here world.old) result world.new }
{
    match world.environment.text_at(path) {
        Some(text) => {
            let at = world.place(here, line)?;
            let rendering = Rendering {
                file: path,
                text,
                given,
                function,
                at: &at,
            };
            render_file(forms, world, &rendering)
        }
        None => Err(Stop::Fault(wrong(world, function, line, here)?)),
    }
}

#[tactic(auto, unfolding(crate::specs::Templating::file_rule))]
fn render_file<F: Fn(&mut World<'_>, Goal<'_>, Here, u32) -> Result<Evaluated, Stop>, M: Meaning>(
    forms: &Forms<F, M>,
    world: &mut World<'_>,
    rendering: &Rendering<'_>,
) -> Result<Evaluated, Stop>
    requires { Nests (M.within forms.now.left) forms.now.left (F.pre forms.now.inner) (F.post forms.now.inner) }
    ensures { Gives same (spec.file_rule (M.within forms.now.left) (rendering_seen rendering.now) world.old) result
        world.new }
{
    let own = world.enter_function(rendering.file)?;
    rendered_in(forms, world, rendering, own)
}

/// `inline_epp('<%= $x %>', { 'x' => 1 })`: a text as a template.
#[tactic(auto, unfolding(crate::specs::Templating::inline_rule))]
pub fn inline_epp<
    F: Fn(&mut World<'_>, Goal<'_>, Here, u32) -> Result<Evaluated, Stop>,
    M: Meaning,
>(
    forms: &Forms<F, M>,
    world: &mut World<'_>,
    function: &Text,
    arguments: &Values,
    line: u32,
    here: Here,
) -> Result<Evaluated, Stop>
    requires { Nests (M.within forms.now.left) forms.now.left (F.pre forms.now.inner) (F.post forms.now.inner) }
    ensures { Gives same (spec.inline_rule (M.within forms.now.left) function.now arguments.now line here world.old)
        result world.new }
{
    match asked_of(arguments.as_slice()) {
        Some(asked) => inline_text(forms, world, function, asked, line, here),
        None => Err(Stop::Fault(wrong(world, function, line, here)?)),
    }
}

fn inline_text<F: Fn(&mut World<'_>, Goal<'_>, Here, u32) -> Result<Evaluated, Stop>, M: Meaning>(
    forms: &Forms<F, M>,
    world: &mut World<'_>,
    function: &Text,
    asked: Asked<'_>,
    line: u32,
    here: Here,
) -> Result<Evaluated, Stop>
    requires { Nests (M.within forms.now.left) forms.now.left (F.pre forms.now.inner) (F.post forms.now.inner) }
    ensures { Gives same (spec.inline_by (M.within forms.now.left) (Some (spec.asked_seen asked.entry)) function.now line
        here world.old) result world.new }
{
    let file = Text::from_str(world.heap.alloc(), INLINE_FILE)?;
    let at = world.place(here, line)?;
    let rendering = Rendering {
        file: &file,
        text: asked.text,
        given: asked.given,
        function,
        at: &at,
    };
    render_text(forms, world, &rendering, here)
}

#[tactic(auto, unfolding(crate::specs::Templating::text_rule))]
fn render_text<F: Fn(&mut World<'_>, Goal<'_>, Here, u32) -> Result<Evaluated, Stop>, M: Meaning>(
    forms: &Forms<F, M>,
    world: &mut World<'_>,
    rendering: &Rendering<'_>,
    here: Here,
) -> Result<Evaluated, Stop>
    requires { Nests (M.within forms.now.left) forms.now.left (F.pre forms.now.inner) (F.post forms.now.inner) }
    ensures { Gives same (spec.text_rule (M.within forms.now.left) (rendering_seen rendering.now) here world.old) result
        world.new }
{
    let own = world.enter_inline(here)?;
    rendered_in(forms, world, rendering, own)
}

/// The template in its scope, which ends with the call.
#[tactic(auto, unfolding(crate::specs::Templating::rendered_in))]
fn rendered_in<F: Fn(&mut World<'_>, Goal<'_>, Here, u32) -> Result<Evaluated, Stop>, M: Meaning>(
    forms: &Forms<F, M>,
    world: &mut World<'_>,
    rendering: &Rendering<'_>,
    own: Here,
) -> Result<Evaluated, Stop>
    requires { Nests (M.within forms.now.left) forms.now.left (F.pre forms.now.inner) (F.post forms.now.inner) }
    ensures { Gives same (spec.rendered_in (M.within forms.now.left) (rendering_seen rendering.now) own world.old) result
        world.new }
{
    let value = template(forms, world, rendering, own)?;
    world.leave(own);
    Ok(value)
}

/// What the arguments ask for; `None` where the functions do not take them.
fn asked_of<'a>(arguments: &'a [Value]) -> Option<Asked<'a>>
    ensures { option_map spec.asked_seen result ≡ spec.asked_of (views arguments.now) }
{
    match arguments {
        [] => None,
        [text] => text_with(text, None),
        [text, given] => with_hash(text, given),
        [_, _, _, ..] => None,
    }
}

fn with_hash<'a>(text: &'a Value, given: &'a Value) -> Option<Asked<'a>>
    ensures { option_map spec.asked_seen result ≡ spec.with_hash (view text.now) (view given.now) }
{
    match given {
        Value::Hash(_) => text_with(text, Some(given)),
        _ => None,
    }
}

fn text_with<'a>(text: &'a Value, given: Option<&'a Value>) -> Option<Asked<'a>>
    ensures { option_map spec.asked_seen result
        ≡ spec.text_with (view text.now) (option_map (λ v. view v.now) given.entry) }
{
    match text {
        Value::Text(text) => Some(Asked { text, given }),
        _ => None,
    }
}

/// The path of the template of a name, where that has a `/`.
fn template_path(alloc: Global, name: &Text) -> Result<Option<Text>, Memory>
    ensures { IfOk result (λ o. o ≡ spec.template_path name.now) }
{
    match name.as_str().split_once('/') {
        Some((folder, file)) => Ok(Some(path_in(alloc, folder, file)?)),
        None => Ok(None),
    }
}

/// The template of this path within a module's folder of templates.
fn path_in(alloc: Global, folder: &str, file: &str) -> Result<Text, Memory>
    ensures { IfOk result (λ t. t ≡ codes "modules/" ++ (folder.now ++ (codes "/templates/" ++ file.now))) }
{
    let room = folder
        .len()
        .saturating_add(file.len())
        .saturating_add(BESIDE);
    let mut path = String::with_capacity(alloc, room)?;
    path.push_str("modules/")?;
    path.push_str(folder)?;
    path.push_str("/templates/")?;
    path.push_str(file)?;
    Ok(Text::new(path))
}

//! The text of the helpers.

ghost use Rattle.std.specs.Prelude.{◌≡◌};
ghost use Rattle.helpers.specs.Text.{text_bytes};

/// What scripts define of what they call: a script in strict code (ECMA-262, 5.1 edition, in the profile of `docs/ES5_PROFILE.md`), whose
/// statements behind the directive each define one name. Each definition stands behind those that it uses.
///
/// A script that takes some of these defines besides `empty`, the mark of an uninitialized name, and `call` and `apply`, those of
/// Function.prototype. It has no other names in common with the text, but for the globals of both editions. Properties that helpers
/// alone know have keys that begin with `@@`; they are put as any other, which is fast, since no module can tell what is enumerable.
const TEXT: &[u8] = b"'use strict';

// ---- objects

var has_own = Object.prototype.hasOwnProperty;

function is_object(v) {
  return typeof v === 'function' || typeof v === 'object' && v !== null;
}

function is_nothing(v) { return v === void 0 || v === null; }

// CreateDataPropertyOrThrow (7.3.6); small engines redefine no accessor as a plain property
function plain_put(o, key, v) {
  if (has_own.call(o, key)) delete o[key];
  Object.defineProperty(o, key, {value: v, writable: true, enumerable: true, configurable: true});
}

// GetMethod (7.3.9)
function method_of(v, key) {
  var method = v[key];
  if (is_nothing(method)) return void 0;
  if (typeof method !== 'function') throw new TypeError();
  return method;
}

// ---- names

function check_ready(v) {
  if (v === empty) throw new ReferenceError();
  return v;
}

function refuse_const() { throw new TypeError(); }

function cell_make(v) { return {v: v}; }

// ---- texts and keys

function to_text(v) { return String(v); }

// ---- iterators (7.4, 21.1.5, 22.1.5): the key '@@iterator' stands for Symbol.iterator

function return_self() { return this; }

var array_iterator_prototype = {
  next: function () {
    var state, at;
    if (!is_object(this) || !has_own.call(this, '@@array')) throw new TypeError();
    state = this['@@array'];
    if (state.done) return {value: void 0, done: true};
    at = state.next;
    if (at >= +state.of.length) {
      state.done = true;
      state.of = void 0;
      return {value: void 0, done: true};
    }
    state.next = at + 1;
    return {value: state.of[at], done: false};
  },
  '@@iterator': return_self
};

// by code points: a pair of surrogates is one
var string_iterator_prototype = {
  next: function () {
    var state, at, first, second, size = 1;
    if (!is_object(this) || !has_own.call(this, '@@string')) throw new TypeError();
    state = this['@@string'];
    at = state.next;
    if (at >= state.of.length) return {value: void 0, done: true};
    first = state.of.charCodeAt(at);
    if (first >= 0xD800 && first <= 0xDBFF && at + 1 < state.of.length) {
      second = state.of.charCodeAt(at + 1);
      if (second >= 0xDC00 && second <= 0xDFFF) size = 2;
    }
    state.next = at + size;
    return {value: state.of.substring(at, at + size), done: false};
  },
  '@@iterator': return_self
};

// Array.prototype[Symbol.iterator]
function array_values() {
  var iterator;
  if (is_nothing(this)) throw new TypeError();
  iterator = Object.create(array_iterator_prototype);
  iterator['@@array'] = {of: this, next: 0, done: false};
  return iterator;
}

// String.prototype[Symbol.iterator]
function string_values() {
  var iterator, text;
  if (is_nothing(this)) throw new TypeError();
  text = String(this);
  iterator = Object.create(string_iterator_prototype);
  iterator['@@string'] = {of: text, next: 0};
  return iterator;
}

// v[Symbol.iterator]: the two objects of the library that have the key can't be changed
function iter_read(v) {
  var o;
  if (v === void 0 || v === null) throw new TypeError();
  if (typeof v === 'string') return string_values;
  if (typeof v !== 'object' && typeof v !== 'function') return void 0;
  if ('@@iterator' in v) return v['@@iterator'];
  for (o = v; o !== null; o = Object.getPrototypeOf(o)) {
    if (o === Array.prototype) return array_values;
    if (o === String.prototype) return string_values;
  }
  return void 0;
}

// GetIterator (7.4.1); in mode 1 the method alone. A cursor stands for an array's iterator, which nothing but iter_step, iter_close and
// delegate_step meets here: no module can change what its prototype has
function iter_start(v, mode) {
  var method = iter_read(v), iterator;
  if (mode === 1) return method;
  if (method === array_values) return {'@@at': 0, of: v, value: void 0};
  if (typeof method !== 'function') throw new TypeError();
  iterator = call.call(method, v);
  if (!is_object(iterator)) throw new TypeError();
  return iterator;
}

// IteratorStep (7.4.5): an object that has the value, or false
function iter_step(iterator) {
  var at = iterator['@@at'], of, result;
  if (at !== void 0) {
    of = iterator.of;
    if (of === null) return false;
    if (at >= +of.length) {
      iterator.of = null;
      return false;
    }
    iterator['@@at'] = at + 1;
    iterator.value = of[at];
    return iterator;
  }
  result = iterator.next();
  if (!is_object(result)) throw new TypeError();
  return result.done ? false : result;
}

function iter_value(result) { return result.value; }

// IteratorClose (7.4.6); whether a throw is under way, which then stands
function iter_close(iterator, throws) {
  var method, result;
  if (iterator['@@at'] !== void 0) return;
  method = method_of(iterator, 'return');
  if (method === void 0) return;
  if (throws) {
    try { call.call(method, iterator); } catch (ignored) { }
    return;
  }
  result = call.call(method, iterator);
  if (!is_object(result)) throw new TypeError();
}

// ---- lists

function rest_list(passed, from) {
  var list = [], i;
  for (i = from; i < passed.length; i = i + 1) list[list.length] = passed[i];
  return list;
}

// by the mark one element (0), those of an iterable (1), or a hole (2) more
function spread_list(list, v, mark) {
  var iterator, at, result;
  if (mark === 0) list[list.length] = v;
  else if (mark === 2) list.length = list.length + 1;
  else {
    iterator = iter_start(v, 0);
    if (iterator['@@at'] === 0) for (at = 0; at < +v.length; at = at + 1) list[list.length] = v[at];
    else while (result = iter_step(iterator)) list[list.length] = iter_value(result);
  }
  return list;
}

function arguments_put(passed) {
  passed['@@iterator'] = array_values;
  return passed;
}

// ---- construction (9.2): the construction under way is left here for the function, which takes it first of all

var pending = null;

function construct_as(f, list, target) {
  var frame, prototype, result, derived;
  derived = has_own.call(f, '@@parent');
  frame = {callee: f, target: target, self: empty};
  if (!derived) {
    prototype = target.prototype;
    frame.self = Object.create(is_object(prototype) ? prototype : Object.prototype);
  }
  pending = frame;
  result = apply.call(f, derived ? void 0 : frame.self, list);
  if (is_object(result)) return result;
  if (derived && result !== void 0) throw new TypeError();
  return check_ready(frame.self);
}

function construct(f, list) {
  if (typeof f !== 'function') throw new TypeError();
  return construct_as(f, list, f);
}

function new_target(f) {
  var frame = pending;
  if (frame === null || frame.callee !== f) return void 0;
  pending = null;
  return frame.target;
}

// the frame of a constructor, which isn't called without a construction
function class_guard(f) {
  var frame = pending;
  if (frame === null || frame.callee !== f) throw new TypeError();
  pending = null;
  return frame;
}

function super_construct(frame, list) {
  return construct_as(frame.callee['@@parent'], list, frame.target);
}

function this_bind(frame, v) {
  if (frame.self !== empty) throw new ReferenceError();
  frame.self = v;
  return v;
}

// ---- classes (14.5): a class keeps its parent, its prototype as the home of its constructor, and the keys of its static members

// OrdinaryGet (9.1.8)
function get_from(o, key, receiver) {
  var d;
  for (; o !== null; o = Object.getPrototypeOf(o)) {
    d = Object.getOwnPropertyDescriptor(o, key);
    if (d !== void 0) {
      if (has_own.call(d, 'value')) return d.value;
      return d.get === void 0 ? void 0 : call.call(d.get, receiver);
    }
    if (key === '@@iterator') {
      if (o === Array.prototype) return array_values;
      if (o === String.prototype) return string_values;
    }
  }
  return void 0;
}

// OrdinarySet (9.1.9) to an object that has at most an accessor of a recorded key
function set_from(o, key, receiver, v) {
  var d;
  for (; o !== null; o = Object.getPrototypeOf(o)) {
    d = Object.getOwnPropertyDescriptor(o, key);
    if (d !== void 0) {
      if (has_own.call(d, 'value')) {
        if (!d.writable) throw new TypeError();
        break;
      }
      if (d.set === void 0) throw new TypeError();
      call.call(d.set, receiver, v);
      return;
    }
  }
  plain_put(receiver, key, v);
}

// a static member of the parent is read and written there, with the present receiver
function record_key(f, parent, key) {
  var getter = function () { return get_from(parent, key, this); };
  getter['@@recorded'] = true;
  f['@@keys'].push(key);
  Object.defineProperty(f, key, {
    get: getter,
    set: function (v) { set_from(parent, key, this, v); },
    enumerable: true, configurable: true
  });
}

// the keys of static members that the parent still has
function record_keys(f, parent) {
  var keys, i;
  if (!has_own.call(parent, '@@keys')) return;
  keys = parent['@@keys'];
  for (i = 0; i < keys.length; i = i + 1) {
    if (has_own.call(parent, keys[i])) record_key(f, parent, keys[i]);
  }
}

function class_make(derived, parent, f) {
  var above = Object.prototype, prototype;
  if (derived) {
    if (typeof parent !== 'function') throw new TypeError();
    above = parent.prototype;
    if (!is_object(above) && above !== null) throw new TypeError();
    f['@@parent'] = parent;
  }
  prototype = Object.create(above);
  Object.defineProperty(prototype, 'constructor', {value: f, writable: true, configurable: true});
  Object.defineProperty(f, 'prototype', {value: prototype, writable: false});
  f['@@home'] = prototype;
  f['@@keys'] = [];
  if (derived) record_keys(f, parent);
  return f;
}

// what is put on a class is a static member
function note_key(o, key) {
  if (has_own.call(o, '@@keys') && o['@@keys'].indexOf(key) < 0) o['@@keys'].push(key);
}

// a method knows the object that it is put on
function method_put(o, key, v, is_method) {
  plain_put(o, key, v);
  if (is_method) {
    v['@@home'] = o;
    note_key(o, key);
  }
  return o;
}

// an accessor keeps its other half, unless that is one of a recorded key; mujs gives descriptors of inherited properties too
function accessor_put(o, key, f, is_setter) {
  var d = has_own.call(o, key) ? Object.getOwnPropertyDescriptor(o, key) : void 0, getter, setter;
  if (d !== void 0 && !has_own.call(d, 'value')) {
    if (d.get === void 0 || !has_own.call(d.get, '@@recorded')) {
      getter = d.get;
      setter = d.set;
    }
  }
  if (is_setter) setter = f;
  else getter = f;
  if (d !== void 0) delete o[key];
  Object.defineProperty(o, key, {get: getter, set: setter, enumerable: true, configurable: true});
  f['@@home'] = o;
  note_key(o, key);
  return o;
}

// the prototype of the home object, which for a class is its parent
function super_base(home) {
  var base = has_own.call(home, '@@parent') ? home['@@parent'] : Object.getPrototypeOf(home);
  if (base === null) throw new TypeError();
  return base;
}

function super_get(f, key, receiver) { return get_from(super_base(f['@@home']), key, receiver); }

// ---- generators (25.3): at the start (0), at a yield (1), executing (2) or completed (3). One is resumed by next (0), throw (1)
// or return (2); a step gives a value that is yielded (0), a result object that is handed on (1), or the last value (2).

function generator_resume(g, kind, value) {
  var state, out;
  if (!is_object(g) || !has_own.call(g, '@@generator')) throw new TypeError();
  state = g['@@generator'];
  if (state.at === 2) throw new TypeError();
  if (state.at === 0 && kind !== 0) state.at = 3;
  if (state.at === 3) {
    if (kind === 1) throw value;
    return {value: kind === 2 ? value : void 0, done: true};
  }
  state.at = 2;
  try {
    out = state.step(kind, value);
  } catch (thrown) {
    state.at = 3;
    state.step = void 0;
    throw thrown;
  }
  if (out[0] === 2) {
    state.at = 3;
    state.step = void 0;
    return {value: out[1], done: true};
  }
  state.at = 1;
  return out[0] === 0 ? {value: out[1], done: false} : out[1];
}

var generator_prototype = {
  next: function (v) { return generator_resume(this, 0, v); },
  'return': function (v) { return generator_resume(this, 2, v); },
  'throw': function (v) { return generator_resume(this, 1, v); },
  '@@iterator': return_self
};

function generator_function(f) {
  f.prototype = Object.create(generator_prototype);
  return f;
}

function generator_make(f, step) {
  var prototype = f.prototype, g = Object.create(is_object(prototype) ? prototype : generator_prototype);
  g['@@generator'] = {step: step, at: 0};
  return g;
}

// the result object of one step of `yield*` (14.4.14), or undefined where the iterator has no `return`
function delegate_step(iterator, kind, value) {
  var method, result;
  if (iterator['@@at'] !== void 0) {
    if (kind === 2) return void 0;
    if (kind === 1) throw new TypeError();
    return iter_step(iterator) ? {value: iterator.value, done: false} : {value: void 0, done: true};
  }
  if (kind === 0) result = iterator.next(value);
  else {
    method = method_of(iterator, kind === 1 ? 'throw' : 'return');
    if (method === void 0) {
      if (kind === 2) return void 0;
      iter_close(iterator, false);
      throw new TypeError();
    }
    result = call.call(method, iterator, value);
  }
  if (!is_object(result)) throw new TypeError();
  return result;
}

// ---- namespace objects (9.4.6): a list of names, each before the function that reads it

function namespace_make(list) {
  var namespace = Object.create(null), i;
  for (i = 0; i < list.length; i = i + 2) {
    Object.defineProperty(namespace, list[i], {get: list[i + 1], enumerable: true});
  }
  Object.preventExtensions(namespace);
  return namespace;
}

// ---- parts of the 7th edition (12.6.4, 22.1.3.11)

// no product on the way is above a power that is a safe number
function power(a, b) {
  var product = 1, left;
  a = +a;
  b = +b;
  if (b === 0 || a === 1) return 1;
  if (a === -1) return b % 2 === 0 ? 1 : -1;
  if (b < 0) return 1 / a;
  if (a === 0) return 0;
  for (left = b > 53 ? 54 : b; left > 0; left = left - 1) product = product * a;
  return product;
}

function includes_put() {
  Object.defineProperty(Array.prototype, 'includes', {
    value: function (v, from) {
      var length = +this.length, at;
      if (length === 0) return false;
      at = from === void 0 ? 0 : +from;
      if (at < 0) {
        at = length + at;
        if (at < 0) at = 0;
      }
      for (; at < length; at = at + 1) if (this[at] === v) return true;
      return false;
    },
    writable: true, configurable: true
  });
}

// ---- template objects (12.2.9.3)

var templates = [];

function have_same_texts(one, other) {
  var i;
  if (one.length !== other.length) return false;
  for (i = 0; i < one.length; i = i + 1) if (one[i] !== other[i]) return false;
  return true;
}

// not every engine lets the length be fixed
function fix_list(list) {
  var i;
  for (i = 0; i < list.length; i = i + 1) Object.defineProperty(list, i, {writable: false, configurable: false});
  try { Object.defineProperty(list, 'length', {writable: false}); } catch (ignored) { }
  Object.preventExtensions(list);
}

function template_object(cooked, raw) {
  var i;
  for (i = 0; i < templates.length; i = i + 1) {
    if (have_same_texts(templates[i].raw, raw)) return templates[i];
  }
  fix_list(raw);
  Object.defineProperty(cooked, 'raw', {value: raw});
  fix_list(cooked);
  templates.push(cooked);
  return cooked;
}
";

/// The bytes of the text.
#[tactic(auto, unfolding(crate::specs::Text::text_bytes))]
pub fn helper_text() -> &'static [u8]
    ensures { result.now ≡ text_bytes }
{
    TEXT
}
